//! Calls, put behind a text.
ghost use Rattle.std.specs.Prelude.{◌≡◌, ◌++◌, OnOk, codes, decimal};
ghost use Rattle.std.specs.Fmt.{signed_decimal};
ghost use Rattle.posix_tables.specs.Places.{printed};
ghost use Rattle.report_text.specs.Texts.{call_text, data_text, flags_text, handle_text, letter_if, whence_text};

use crate::bytes::{put_handle, put_number, put_path, put_signed, put_str};
use crate::data::put_data;
use posix_types::{Call, Data, Flags, Handle, Path, Whence};
use std::alloc::AllocError;

/// Puts a letter behind a text where a flag is set.
fn put_letter(text: &mut Vec<u8>, is_set: bool, letter: &str) -> Result<(), AllocError>
    ensures { OnOk result (text.new.items ≡ text.old.items ++ letter_if is_set letter.now) }
{
    if is_set {
        put_str(text, letter)
    } else {
        Ok(())
    }
}

/// Puts flags behind a text.
#[tactic(auto, unfolding(crate::specs::Texts::flags_text))]
fn put_flags(text: &mut Vec<u8>, flags: Flags) -> Result<(), AllocError>
    ensures { OnOk result (text.new.items ≡ text.old.items ++ flags_text flags) }
{
    put_letter(text, flags.read, "r")?;
    put_letter(text, flags.write, "w")?;
    put_letter(text, flags.append, "a")?;
    put_letter(text, flags.create, "c")?;
    put_letter(text, flags.exclusive, "x")?;
    put_letter(text, flags.truncate, "t")
}

/// The word of what a seek counts from.
fn whence_word(whence: Whence) -> &'static str
    ensures { result.now ≡ whence_text whence }
{
    match whence {
        Whence::Set => "set",
        Whence::Cur => "cur",
        Whence::End => "end",
    }
}

/// Puts the name of a call and a path.
fn put_on_path(text: &mut Vec<u8>, call: &str, path: &Path) -> Result<(), AllocError>
    ensures { OnOk result (text.new.items ≡ text.old.items ++ call.now ++ printed path.now) }
{
    put_str(text, call)?;
    put_path(text, path)
}

/// Puts the name of a call and a handle.
fn put_on_handle(text: &mut Vec<u8>, call: &str, handle: Handle) -> Result<(), AllocError>
    ensures { OnOk result (text.new.items ≡ text.old.items ++ call.now ++ handle_text handle) }
{
    put_str(text, call)?;
    put_handle(text, handle)
}

/// Puts the name of a call, a handle and a number.
fn put_with_number(
    text: &mut Vec<u8>,
    call: &str,
    handle: Handle,
    number: u64,
) -> Result<(), AllocError>
    ensures { OnOk result (text.new.items ≡ text.old.items ++ call.now ++ handle_text handle ++ codes " " ++ decimal number) }
{
    put_on_handle(text, call, handle)?;
    put_number(text, " ", number)
}

/// Puts a rename.
fn put_rename(text: &mut Vec<u8>, from: &Path, to: &Path) -> Result<(), AllocError>
    ensures { OnOk result (text.new.items ≡ text.old.items ++ codes "rename " ++ printed from.now ++ codes " " ++ printed to.now) }
{
    put_on_path(text, "rename ", from)?;
    put_on_path(text, " ", to)
}

/// Puts an open.
fn put_open(text: &mut Vec<u8>, handle: Handle, path: &Path, flags: Flags) -> Result<(), AllocError>
    ensures { OnOk result (text.new.items ≡ text.old.items ++ codes "open " ++ handle_text handle ++ codes " " ++ printed path.now ++ codes " " ++ flags_text flags) }
{
    put_on_handle(text, "open ", handle)?;
    put_on_path(text, " ", path)?;
    text.push(b' ')?;
    put_flags(text, flags)
}

/// Puts a write at the offset.
fn put_write(text: &mut Vec<u8>, handle: Handle, bytes: &Data) -> Result<(), AllocError>
    ensures { OnOk result (text.new.items ≡ text.old.items ++ codes "write " ++ handle_text handle ++ codes " " ++ data_text bytes.now) }
{
    put_on_handle(text, "write ", handle)?;
    text.push(b' ')?;
    put_data(text, bytes.as_slice())
}

/// Puts a write at a place.
fn put_pwrite(
    text: &mut Vec<u8>,
    handle: Handle,
    offset: u64,
    bytes: &Data,
) -> Result<(), AllocError>
    ensures { OnOk result (text.new.items ≡ text.old.items ++ codes "pwrite " ++ handle_text handle ++ codes " " ++ decimal offset ++ codes " " ++ data_text bytes.now) }
{
    put_with_number(text, "pwrite ", handle, offset)?;
    text.push(b' ')?;
    put_data(text, bytes.as_slice())
}

/// Puts a read from a place.
fn put_pread(text: &mut Vec<u8>, handle: Handle, offset: u64, count: u64) -> Result<(), AllocError>
    ensures { OnOk result (text.new.items ≡ text.old.items ++ codes "pread " ++ handle_text handle ++ codes " " ++ decimal offset ++ codes " " ++ decimal count) }
{
    put_with_number(text, "pread ", handle, offset)?;
    put_number(text, " ", count)
}

/// Puts a seek.
fn put_seek(text: &mut Vec<u8>, handle: Handle, whence: Whence, by: i64) -> Result<(), AllocError>
    ensures { OnOk result (text.new.items ≡ text.old.items ++ codes "seek " ++ handle_text handle ++ codes " " ++ whence_text whence ++ codes " " ++ signed_decimal by) }
{
    put_on_handle(text, "seek ", handle)?;
    put_str(text, " ")?;
    put_str(text, whence_word(whence))?;
    put_signed(text, " ", by)
}

/// Puts a dup.
fn put_dup(text: &mut Vec<u8>, old: Handle, new: Handle) -> Result<(), AllocError>
    ensures { OnOk result (text.new.items ≡ text.old.items ++ codes "dup " ++ handle_text old ++ codes " " ++ handle_text new) }
{
    put_on_handle(text, "dup ", old)?;
    put_on_handle(text, " ", new)
}

/// Puts a call behind a text.
#[tactic(auto, unfolding(crate::specs::Texts::call_text))]
pub(crate) fn put_call(text: &mut Vec<u8>, call: &Call) -> Result<(), AllocError>
    ensures { OnOk result (text.new.items ≡ text.old.items ++ call_text call.now) }
{
    match call {
        Call::Mkdir(path) => put_on_path(text, "mkdir ", path),
        Call::Rmdir(path) => put_on_path(text, "rmdir ", path),
        Call::Unlink(path) => put_on_path(text, "unlink ", path),
        Call::Rename(from, to) => put_rename(text, from, to),
        Call::Open(handle, path, flags) => put_open(text, *handle, path, *flags),
        Call::Close(handle) => put_on_handle(text, "close ", *handle),
        Call::Dup(old, new) => put_dup(text, *old, *new),
        Call::Read(handle, count) => put_with_number(text, "read ", *handle, *count),
        Call::Pread(handle, offset, count) => put_pread(text, *handle, *offset, *count),
        Call::Write(handle, bytes) => put_write(text, *handle, bytes),
        Call::Pwrite(handle, offset, bytes) => put_pwrite(text, *handle, *offset, bytes),
        Call::Seek(handle, whence, by) => put_seek(text, *handle, *whence, *by),
        Call::Truncate(handle, length) => put_with_number(text, "truncate ", *handle, *length),
        Call::Fsync(handle) => put_on_handle(text, "fsync ", *handle),
        Call::Stat(path) => put_on_path(text, "stat ", path),
        Call::List(path) => put_on_path(text, "list ", path),
    }
}
