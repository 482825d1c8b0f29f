//! Numbers: decimal digits, and a minus sign before them where a call takes one; and lists of them.
ghost use Rattle.std.specs.Prelude.{◌≡◌, ◌≤◌, ◌<◌, ◌^◌, length, option_map, true, IfOk, IfSome};
ghost use Rattle.std.specs.Char.{is_ascii_digit};
ghost use Rattle.std.specs.List.{list_all};
ghost use Rattle.std.specs.Str.Parse.{digits_value};
ghost use Rattle.script_text.specs.Words.{fits, is_number, less, number_in, numbers_in, signed_in};

use crate::cuts::{behind, front, length_before};
use std::alloc::{AllocError, Global};

/// Whether all bytes are decimal digits.
fn are_digits(word: &[u8]) -> bool
    ensures { result ≡ list_all is_ascii_digit word.now }
{
    word.iter().all(|byte| byte.is_ascii_digit())
}

/// Whether a word is a number.
fn is_number(word: &[u8]) -> bool
    ensures { result ≡ is_number word.now }
{
    if !are_digits(word) || word.is_empty() || word.len() > 18 {
        return false;
    }
    word.len() == 1 || word[0] != b'0'
}

/// The value of at most 18 digits.
fn value_of(word: &[u8]) -> u64
    requires digits { list_all is_ascii_digit word.now ≡ true }
    requires few { length word.now ≤ 18 }
    ensures value { result ≡ digits_value 10 word.now }
    ensures small { result < 10 ^ 18 }
{
    let mut value = 0;
    for byte in word {
        value = value * 10 + u64::from(*byte - b'0');
    }
    value
}

/// The number that a word spells, if it spells one: 1 to 18 decimal digits, of which the first is 0
/// only where it is the only one.
#[tactic(auto, unfolding(crate::specs::Words::number_in))]
pub fn read_number(word: &[u8]) -> Option<u64>
    ensures value { result ≡ number_in word.now }
    ensures small { IfSome result (λ number. number < 10 ^ 18) }
{
    if is_number(word) {
        Some(value_of(word))
    } else {
        None
    }
}

/// The number below zero, or 0.
fn less(number: u64) -> i64
    requires { number < 10 ^ 18 }
    ensures { result ≡ less number }
{
    -(number as i64)
}

/// The number that a word spells, with a minus sign before it or without: `-0` is 0.
pub(crate) fn read_signed(word: &[u8]) -> Option<i64>
    ensures { result ≡ signed_in word.now }
{
    if word.is_empty() {
        return None;
    }
    if word[0] == b'-' {
        let number = read_number(behind(word, 1))?;
        return Some(less(number));
    }
    let number = read_number(word)?;
    Some(number as i64)
}

/// Whether a word spells numbers with commas between them, at most so many and none of them higher than one. It takes
/// no memory.
pub fn spells_numbers(word: &[u8], most: usize, highest: u64) -> bool
    ensures { result ≡ fits most highest (numbers_in word.now) }
{
    let mut count = 0;
    let mut rest = word;
    loop {
        let end = length_before(rest, b',');
        let Some(number) = read_number(front(rest, end)) else {
            return false;
        };
        if number > highest {
            return false;
        }
        if count == most {
            return false;
        }
        count += 1;
        if end == rest.len() {
            return true;
        }
        rest = behind(rest, end + 1);
    }
}

/// The numbers that a word spells, if it spells some: one or more, with commas between them.
pub fn read_numbers(alloc: Global, word: &[u8]) -> Result<Option<Vec<u64>>, AllocError>
    ensures { IfOk result (λ numbers. option_map (λ all. all.items) numbers ≡ numbers_in word.now) }
{
    let mut numbers = Vec::new(alloc);
    let mut rest = word;
    loop {
        let end = length_before(rest, b',');
        let Some(number) = read_number(front(rest, end)) else {
            return Ok(None);
        };
        numbers.push(number)?;
        if end == rest.len() {
            return Ok(Some(numbers));
        }
        rest = behind(rest, end + 1);
    }
}
