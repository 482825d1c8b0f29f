//! Lines of a script, and words of a line: both are parts of the bytes, never copies.
ghost use Rattle.std.specs.Prelude.{◌≡◌, ◌≢◌, ◌<◌, ◌≤◌, ◌∷◌, [], ℕ, length, slice_index, IfSome, MatchOption, map};
ghost use Rattle.std.specs.List.{list_all};
ghost use Rattle.script_text.specs.Lines.{is_text, is_text_byte, lines_of, text_of, without_return, words_of};

use crate::cuts::{behind, front, length_before};

/// The most bytes of a line.
const LONGEST_LINE: usize = 400_000;

/// The bytes without a byte 13 at their end.
fn without_return(bytes: &[u8]) -> &[u8]
    ensures { result.now ≡ without_return bytes.now }
{
    if !bytes.is_empty() && bytes[bytes.len() - 1] == b'\r' {
        front(bytes, bytes.len() - 1)
    } else {
        bytes
    }
}

/// The text of the first line, and the bytes behind that line.
pub(crate) fn split_line(bytes: &[u8]) -> (&[u8], &[u8])
    requires { 0 < length bytes.now }
    ensures texts { map text_of (lines_of bytes.now)
        ≡ result.0.now ∷ map text_of (lines_of result.1.now) }
    ensures shorter { length result.1.now < length bytes.now }
{
    let end = length_before(bytes, b'\n');
    if end < bytes.len() {
        (without_return(front(bytes, end)), behind(bytes, end + 1))
    } else {
        (bytes, &[])
    }
}

/// Whether a byte is from 32 to 126.
fn is_text_byte(byte: u8) -> bool
    ensures { result ≡ is_text_byte byte }
{
    32 <= byte && byte <= 126
}

/// Whether all bytes are.
fn are_text_bytes(text: &[u8]) -> bool
    ensures { result ≡ list_all is_text_byte text.now }
{
    text.iter().all(|byte| is_text_byte(*byte))
}

/// Whether a line's text has bytes 32 to 126 alone, and not too many.
pub(crate) fn is_text(text: &[u8]) -> bool
    ensures { result ≡ is_text text.now }
{
    are_text_bytes(text) && text.len() <= LONGEST_LINE
}

/// How many blanks a text begins with.
fn blanks_before(text: &[u8]) -> usize
    ensures within { result ≤ length text.now }
    ensures blank { (k : ℕ) → k < result → slice_index text.now k ≡ 32 }
    ensures stops { result < length text.now → slice_index text.now result ≢ 32 }
{
    for (at, byte) in text.iter().enumerate() {
        if *byte != b' ' {
            return at;
        }
    }
    text.len()
}

/// The first word of a text, and the text behind it; none, where the text has no words.
pub(crate) fn split_word(text: &[u8]) -> Option<(&[u8], &[u8])>
    ensures words { MatchOption result
        (words_of text.now ≡ [])
        (λ parts. words_of text.now ≡ parts.0.now ∷ words_of parts.1.now) }
    ensures some { IfSome result (λ parts. 0 < length parts.0.now) }
{
    let start = blanks_before(text);
    if start == text.len() {
        return None;
    }
    let text = behind(text, start);
    let end = length_before(text, b' ');
    Some((front(text, end), behind(text, end)))
}
