//! Handles, flags, and what a seek counts from.
ghost use Rattle.std.specs.Prelude.{◌≡◌, ◌≤◌, ◌++◌, ◌∷◌, [], ℕ, List, length, false, MatchOption, Some, None};
ghost use Rattle.std.specs.List.{list_all};
ghost use Rattle.layout_model.specs.Fields.{is_same};
ghost use Rattle.report_text.specs.Texts.{flags_text, letter_if};
ghost use Rattle.script_text.specs.Words.{flags_in, handle_in, has_letter, is_handle, is_handle_byte, lettered, may_open, whence_in};

use posix_types::{Flags, Handle, Whence};

/// Whether all bytes are small letters or digits.
fn are_handle_bytes(word: &[u8]) -> bool
    ensures { result ≡ list_all is_handle_byte word.now }
{
    word.iter()
        .all(|byte| matches!(*byte, b'a'..=b'z' | b'0'..=b'9'))
}

/// Whether a word is a handle.
fn is_handle(word: &[u8]) -> bool
    ensures { result ≡ is_handle word.now }
{
    are_handle_bytes(word) && !word.is_empty() && word.len() <= 8
}

/// The handle that a word spells, if it spells one: 1 to 8 letters a to z or digits.
#[tactic(auto, unfolding(crate::specs::Words::handle_in))]
pub(crate) fn read_handle(word: &[u8]) -> Option<Handle>
    ensures { result ≡ handle_in word.now }
{
    if !is_handle(word) {
        return None;
    }
    let mut bytes = [0; 8];
    bytes[..word.len()].copy_from_slice(word);
    Some(Handle {
        len: word.len() as u8,
        bytes,
    })
}

/// Whether a word has a letter.
fn has_letter(word: &[u8], letter: u8) -> bool
    ensures { result ≡ has_letter word.now letter }
{
    word.iter().any(|byte| *byte == letter)
}

/// The flags whose letters a word has.
fn lettered(word: &[u8]) -> Flags
    ensures { result ≡ lettered word.now }
{
    Flags {
        read: has_letter(word, b'r'),
        write: has_letter(word, b'w'),
        append: has_letter(word, b'a'),
        create: has_letter(word, b'c'),
        exclusive: has_letter(word, b'x'),
        truncate: has_letter(word, b't'),
    }
}

/// The word behind a letter, where that is wanted: none where the word does not begin with it.
fn behind_letter(word: &[u8], is_set: bool, letter: u8) -> Option<&[u8]>
    ensures { (text : List ℕ) → MatchOption result
        (is_same word.now (letter_if is_set (letter ∷ []) ++ text) ≡ false)
        (λ behind. is_same word.now (letter_if is_set (letter ∷ []) ++ text) ≡ is_same behind.now text) }
{
    if !is_set {
        return Some(word);
    }
    let (first, behind) = word.split_first()?;
    if *first == letter { Some(behind) } else { None }
}

/// Whether a word is the spelling of flags: their letters in order, and nothing behind them.
fn is_spelling(word: &[u8], flags: Flags) -> bool
    ensures { result ≡ is_same word.now (flags_text flags) }
{
    let Some(word) = behind_letter(word, flags.read, b'r') else {
        return false;
    };
    let Some(word) = behind_letter(word, flags.write, b'w') else {
        return false;
    };
    let Some(word) = behind_letter(word, flags.append, b'a') else {
        return false;
    };
    let Some(word) = behind_letter(word, flags.create, b'c') else {
        return false;
    };
    let Some(word) = behind_letter(word, flags.exclusive, b'x') else {
        return false;
    };
    let Some(word) = behind_letter(word, flags.truncate, b't') else {
        return false;
    };
    word.is_empty()
}

/// Whether a file may be opened so.
fn may_open(flags: Flags) -> bool
    ensures { result ≡ may_open flags }
{
    (flags.read || flags.write)
        && (!flags.exclusive || flags.create)
        && (!flags.truncate || flags.write)
}

/// The flags that a word spells, if it spells some: letters of `rwacxt`, each once and in this order,
/// reading or writing, `x` only with `c`, `t` only with `w`.
#[tactic(auto, unfolding(crate::specs::Words::flags_in))]
pub(crate) fn read_flags(word: &[u8]) -> Option<Flags>
    ensures { result ≡ flags_in word.now }
{
    let flags = lettered(word);
    if is_spelling(word, flags) && may_open(flags) {
        Some(flags)
    } else {
        None
    }
}

/// What a seek counts from, by its word.
#[tactic(auto, unfolding(crate::specs::Words::whence_in))]
pub(crate) fn read_whence(word: &[u8]) -> Option<Whence>
    ensures { result ≡ whence_in word.now }
{
    if word == b"set".as_slice() {
        Some(Whence::Set)
    } else if word == b"cur".as_slice() {
        Some(Whence::Cur)
    } else if word == b"end".as_slice() {
        Some(Whence::End)
    } else {
        None
    }
}
