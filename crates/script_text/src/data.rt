//! The data of a write: no bytes, pairs of hexadecimal digits, or a byte and how often.
ghost use Rattle.std.specs.Prelude.{◌≡◌, ◌≤◌, ◌<◌, ◌+◌, ◌*◌, ◌/◌, ◌++◌, ◌∷◌, [], length, slice_index, take, drop, replicate, IfOk, Some, None, true};
ghost use Rattle.std.specs.List.{list_all};
ghost use Rattle.script_text.specs.Words.{data_in, hex_bytes, hex_value, is_even_count, is_hex_digit, is_repeat, number_in, repeated_in};

use crate::cuts::{behind, front};
use crate::numbers::read_number;
use posix_types::Data;
use std::alloc::{AllocError, Global};

/// The most bytes that data may have.
const MOST_DATA: u64 = 1_048_576;

/// Whether a byte is a hexadecimal digit, in small letters.
fn is_hex_digit(byte: u8) -> bool
    ensures { result ≡ is_hex_digit byte }
{
    matches!(byte, b'0'..=b'9' | b'a'..=b'f')
}

/// The value of a hexadecimal digit.
fn hex_value(byte: u8) -> u8
    requires { is_hex_digit byte ≡ true }
    ensures value { result ≡ hex_value byte }
    ensures small { result < 16 }
{
    if byte <= b'9' {
        byte - b'0'
    } else {
        byte - b'a' + 10
    }
}

/// Whether all bytes are hexadecimal digits.
fn are_hex_digits(word: &[u8]) -> bool
    ensures { result ≡ list_all is_hex_digit word.now }
{
    word.iter().all(|byte| is_hex_digit(*byte))
}

/// The byte that two digits spell.
fn hex_byte(high: u8, low: u8) -> u8
    requires high { is_hex_digit high ≡ true }
    requires low { is_hex_digit low ≡ true }
    ensures { result ≡ 16 * hex_value high + hex_value low }
{
    16 * hex_value(high) + hex_value(low)
}

/// The bytes that pairs of digits spell.
fn read_pairs(alloc: Global, word: &[u8]) -> Result<Data, AllocError>
    requires { list_all is_hex_digit word.now ≡ true }
    ensures { IfOk result (λ bytes. bytes ≡ hex_bytes word.now) }
{
    let mut bytes = Vec::with_capacity(alloc, word.len() / 2)?;
    let mut rest = word;
    while rest.len() >= 2 {
        bytes.push(hex_byte(rest[0], rest[1]))?;
        rest = behind(rest, 2);
    }
    Data::of(bytes)
}

/// Whether a word is two digits, a star, and more.
fn is_repeat(word: &[u8]) -> bool
    ensures { result ≡ is_repeat word.now }
{
    word.len() >= 3 && are_hex_digits(front(word, 2)) && word[2] == b'*'
}

/// A byte and how often.
fn read_repeated(alloc: Global, word: &[u8]) -> Result<Option<Data>, AllocError>
    requires { is_repeat word.now ≡ true }
    ensures { IfOk result (λ bytes. bytes ≡ repeated_in word.now (number_in (drop 3 word.now))) }
{
    let Some(count) = read_number(behind(word, 3)) else {
        return Ok(None);
    };
    if count < 1 || count > MOST_DATA {
        return Ok(None);
    }
    let byte = hex_byte(word[0], word[1]);
    let bytes = vec![in alloc; byte; count as usize]?;
    Ok(Some(Data::of(bytes)?))
}

/// Whether a word has an even number of bytes.
fn is_even_count(word: &[u8]) -> bool
    ensures { result ≡ is_even_count word.now }
{
    word.len() % 2 == 0
}

/// The data that a word spells, if it spells some: `-` for no bytes, digits in pairs, or `HH*N`, a
/// byte and how often.
#[tactic(auto, unfolding(crate::specs::Words::data_in))]
pub(crate) fn read_data(alloc: Global, word: &[u8]) -> Result<Option<Data>, AllocError>
    ensures { IfOk result (λ bytes. bytes ≡ data_in word.now) }
{
    if word == b"-".as_slice() {
        return Ok(Some(Data::of(Vec::new(alloc))?));
    }
    if is_repeat(word) {
        return read_repeated(alloc, word);
    }
    if are_hex_digits(word) && !word.is_empty() && is_even_count(word) {
        let bytes = read_pairs(alloc, word)?;
        return Ok(Some(bytes));
    }
    Ok(None)
}
