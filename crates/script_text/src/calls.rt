//! The calls that lines are, and the table of the words that the program runs by now.
ghost use Rattle.std.specs.Prelude.{◌≡◌, ◌∷◌, [], IfOk, true};
ghost use Rattle.script_text.specs.Calls.{all_three, both, call_in, is_known, one_word_call, three_word_call, two_word_call};
ghost use Rattle.script_text.specs.Lines.{words_of};
ghost use Rattle.script_text.specs.Words.{data_in, flags_in, handle_in, number_in, path_in, signed_in, whence_in};

use crate::data::read_data;
use crate::handles::{read_flags, read_handle, read_whence};
use crate::lines::split_word;
use crate::numbers::{read_number, read_signed};
use crate::paths::read_path;
use posix_types::Call;
use std::alloc::{AllocError, Global};

/// Whether the program runs the calls, or knows the heading, with this word by now: the one table
/// that grows.
pub(crate) fn is_known(word: &[u8]) -> bool
    ensures { result ≡ is_known word.now }
{
    word == b"mkdir".as_slice()
        || word == b"rmdir".as_slice()
        || word == b"unlink".as_slice()
        || word == b"rename".as_slice()
        || word == b"open".as_slice()
        || word == b"close".as_slice()
        || word == b"dup".as_slice()
        || word == b"read".as_slice()
        || word == b"pread".as_slice()
        || word == b"write".as_slice()
        || word == b"pwrite".as_slice()
        || word == b"seek".as_slice()
        || word == b"truncate".as_slice()
        || word == b"fsync".as_slice()
        || word == b"stat".as_slice()
        || word == b"list".as_slice()
        || word == b"setup".as_slice()
        || word == b"thread".as_slice()
}

/// A call with one word behind the first.
fn one_word_call(alloc: Global, call: &[u8], a: &[u8]) -> Result<Option<Call>, AllocError>
    ensures { IfOk result (λ found. found ≡ one_word_call call.now a.now) }
{
    if call == b"mkdir".as_slice() {
        Ok(read_path(alloc, a)?.map(Call::Mkdir))
    } else if call == b"rmdir".as_slice() {
        Ok(read_path(alloc, a)?.map(Call::Rmdir))
    } else if call == b"unlink".as_slice() {
        Ok(read_path(alloc, a)?.map(Call::Unlink))
    } else if call == b"close".as_slice() {
        Ok(read_handle(a).map(Call::Close))
    } else if call == b"fsync".as_slice() {
        Ok(read_handle(a).map(Call::Fsync))
    } else if call == b"stat".as_slice() {
        Ok(read_path(alloc, a)?.map(Call::Stat))
    } else if call == b"list".as_slice() {
        Ok(read_path(alloc, a)?.map(Call::List))
    } else {
        Ok(None)
    }
}

/// `rename`, from its two paths.
fn read_rename(alloc: Global, a: &[u8], b: &[u8]) -> Result<Option<Call>, AllocError>
    ensures { IfOk result (λ found. found ≡ both (λ p q. Call.Rename p q) (path_in a.now) (path_in b.now)) }
{
    let Some(from) = read_path(alloc, a)? else {
        return Ok(None);
    };
    let Some(to) = read_path(alloc, b)? else {
        return Ok(None);
    };
    Ok(Some(Call::Rename(from, to)))
}

/// `dup`, from its two handles.
fn read_dup(a: &[u8], b: &[u8]) -> Option<Call>
    ensures { result ≡ both (λ h g. Call.Dup h g) (handle_in a.now) (handle_in b.now) }
{
    let old = read_handle(a)?;
    let new = read_handle(b)?;
    Some(Call::Dup(old, new))
}

/// `read`, from its handle and number of bytes.
fn read_read(a: &[u8], b: &[u8]) -> Option<Call>
    ensures { result ≡ both (λ h n. Call.Read h n) (handle_in a.now) (number_in b.now) }
{
    let handle = read_handle(a)?;
    let count = read_number(b)?;
    Some(Call::Read(handle, count))
}

/// `write`, from its handle and data.
fn read_write(alloc: Global, a: &[u8], b: &[u8]) -> Result<Option<Call>, AllocError>
    ensures { IfOk result (λ found. found ≡ both (λ h x. Call.Write h x) (handle_in a.now) (data_in b.now)) }
{
    let Some(handle) = read_handle(a) else {
        return Ok(None);
    };
    let Some(bytes) = read_data(alloc, b)? else {
        return Ok(None);
    };
    Ok(Some(Call::Write(handle, bytes)))
}

/// `truncate`, from its handle and length.
fn read_truncate(a: &[u8], b: &[u8]) -> Option<Call>
    ensures { result ≡ both (λ h n. Call.Truncate h n) (handle_in a.now) (number_in b.now) }
{
    let handle = read_handle(a)?;
    let length = read_number(b)?;
    Some(Call::Truncate(handle, length))
}

/// A call with two words behind the first.
fn two_word_call(alloc: Global, call: &[u8], a: &[u8], b: &[u8]) -> Result<Option<Call>, AllocError>
    ensures { IfOk result (λ found. found ≡ two_word_call call.now a.now b.now) }
{
    if call == b"rename".as_slice() {
        read_rename(alloc, a, b)
    } else if call == b"dup".as_slice() {
        Ok(read_dup(a, b))
    } else if call == b"read".as_slice() {
        Ok(read_read(a, b))
    } else if call == b"write".as_slice() {
        read_write(alloc, a, b)
    } else if call == b"truncate".as_slice() {
        Ok(read_truncate(a, b))
    } else {
        Ok(None)
    }
}

/// `open`, from its handle, path and flags.
fn read_open(alloc: Global, a: &[u8], b: &[u8], c: &[u8]) -> Result<Option<Call>, AllocError>
    ensures { IfOk result (λ found. found
        ≡ all_three (λ h p f. Call.Open h p f) (handle_in a.now) (path_in b.now) (flags_in c.now)) }
{
    let Some(handle) = read_handle(a) else {
        return Ok(None);
    };
    let Some(path) = read_path(alloc, b)? else {
        return Ok(None);
    };
    let Some(flags) = read_flags(c) else {
        return Ok(None);
    };
    Ok(Some(Call::Open(handle, path, flags)))
}

/// `pread`, from its handle, offset and number of bytes.
fn read_pread(a: &[u8], b: &[u8], c: &[u8]) -> Option<Call>
    ensures { result
        ≡ all_three (λ h o n. Call.Pread h o n) (handle_in a.now) (number_in b.now) (number_in c.now) }
{
    let handle = read_handle(a)?;
    let offset = read_number(b)?;
    let count = read_number(c)?;
    Some(Call::Pread(handle, offset, count))
}

/// `pwrite`, from its handle, offset and data.
fn read_pwrite(alloc: Global, a: &[u8], b: &[u8], c: &[u8]) -> Result<Option<Call>, AllocError>
    ensures { IfOk result (λ found. found
        ≡ all_three (λ h o x. Call.Pwrite h o x) (handle_in a.now) (number_in b.now) (data_in c.now)) }
{
    let Some(handle) = read_handle(a) else {
        return Ok(None);
    };
    let Some(offset) = read_number(b) else {
        return Ok(None);
    };
    let Some(bytes) = read_data(alloc, c)? else {
        return Ok(None);
    };
    Ok(Some(Call::Pwrite(handle, offset, bytes)))
}

/// `seek`, from its handle, what it counts from, and by how much.
fn read_seek(a: &[u8], b: &[u8], c: &[u8]) -> Option<Call>
    ensures { result
        ≡ all_three (λ h w i. Call.Seek h w i) (handle_in a.now) (whence_in b.now) (signed_in c.now) }
{
    let handle = read_handle(a)?;
    let whence = read_whence(b)?;
    let by = read_signed(c)?;
    Some(Call::Seek(handle, whence, by))
}

/// A call with three words behind the first.
fn three_word_call(
    alloc: Global,
    call: &[u8],
    a: &[u8],
    b: &[u8],
    c: &[u8],
) -> Result<Option<Call>, AllocError>
    ensures { IfOk result (λ found. found ≡ three_word_call call.now a.now b.now c.now) }
{
    if call == b"open".as_slice() {
        read_open(alloc, a, b, c)
    } else if call == b"pread".as_slice() {
        Ok(read_pread(a, b, c))
    } else if call == b"pwrite".as_slice() {
        read_pwrite(alloc, a, b, c)
    } else if call == b"seek".as_slice() {
        Ok(read_seek(a, b, c))
    } else {
        Ok(None)
    }
}

/// The call that a word names and the words behind it spell, if they do.
pub(crate) fn read_call(alloc: Global, call: &[u8], text: &[u8]) -> Result<Option<Call>, AllocError>
    ensures { IfOk result (λ found. found ≡ call_in (call.now ∷ words_of text.now)) }
{
    let Some((a, text)) = split_word(text) else {
        return Ok(None);
    };
    let Some((b, text)) = split_word(text) else {
        return one_word_call(alloc, call, a);
    };
    let Some((c, text)) = split_word(text) else {
        return two_word_call(alloc, call, a, b);
    };
    match split_word(text) {
        Some(_) => Ok(None),
        None => three_word_call(alloc, call, a, b, c),
    }
}
