//! What a line of a script is.
ghost use Rattle.std.specs.Prelude.{◌≡◌, ◌==◌, ◌∷◌, ◌<◌, length, IfOk};
ghost use Rattle.script_text.specs.Lines.{words_of};
ghost use Rattle.script_text.specs.Scripts.{text_kind, words_kind};

use crate::calls::{is_known, read_call};
use crate::lines::{is_text, split_word};
use posix_types::Call;
use std::alloc::{AllocError, Global};

/// What a line is: passed over, a heading, a call, or none of these.
#[derive(Drop)]
pub enum Kind {
    Passed,
    SetUp,
    Thread,
    Calls(Call),
    Unread,
}

/// Whether a text has no words.
fn is_empty(text: &[u8]) -> bool
    ensures { result ≡ (length (words_of text.now) == 0) }
{
    split_word(text).is_none()
}

/// What a line with a first word is.
fn kind_behind(alloc: Global, word: &[u8], text: &[u8]) -> Result<Kind, AllocError>
    requires { 0 < length word.now }
    ensures { IfOk result (λ kind. kind ≡ words_kind (word.now ∷ words_of text.now)) }
{
    if word[0] == b'#' {
        return Ok(Kind::Passed);
    }
    if !is_known(word) {
        return Ok(Kind::Unread);
    }
    if word == b"setup".as_slice() && is_empty(text) {
        return Ok(Kind::SetUp);
    }
    if word == b"thread".as_slice() && is_empty(text) {
        return Ok(Kind::Thread);
    }
    match read_call(alloc, word, text)? {
        Some(call) => Ok(Kind::Calls(call)),
        None => Ok(Kind::Unread),
    }
}

/// What a line with this text is.
#[tactic(auto, unfolding(crate::specs::Scripts::text_kind))]
pub(crate) fn kind_of(alloc: Global, text: &[u8]) -> Result<Kind, AllocError>
    ensures { IfOk result (λ kind. kind ≡ text_kind text.now) }
{
    if !is_text(text) {
        return Ok(Kind::Unread);
    }
    match split_word(text) {
        Some((word, behind)) => kind_behind(alloc, word, behind),
        None => Ok(Kind::Passed),
    }
}
