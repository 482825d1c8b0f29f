//! Data, put behind a text.
ghost use Rattle.std.specs.Prelude.{◌≡◌, ◌<◌, ◌≤◌, ◌*◌, ◌==◌, ◌++◌, OnOk, flat_map, length, take};
ghost use Rattle.std.specs.List.{list_all};
ghost use Rattle.report_text.specs.Texts.{are_equal, data_text, hex_byte, hex_digit};

use crate::bytes::{put_number, put_str};
use std::alloc::AllocError;

/// The hexadecimal digit of a number below 16.
fn hex_digit(digit: u8) -> u8
    requires { digit < 16 }
    ensures { result ≡ hex_digit digit }
{
    if digit < 10 {
        b'0' + digit
    } else {
        b'a' - 10 + digit
    }
}

/// Puts a byte behind a text as two hexadecimal digits.
fn put_hex(text: &mut Vec<u8>, byte: u8) -> Result<(), AllocError>
    ensures { OnOk result (text.new.items ≡ text.old.items ++ hex_byte byte) }
{
    text.push(hex_digit(byte / 16))?;
    text.push(hex_digit(byte % 16))?;
    Ok(())
}

/// Writes bytes into the front of an array, each as two hexadecimal digits.
fn fill_pairs(pairs: &mut [u8; 64], bytes: &[u8])
    requires { length bytes.now ≤ 32 }
    ensures { take (2 * length bytes.now) pairs.new ≡ flat_map hex_byte bytes.now }
{
    for (index, byte) in bytes.iter().enumerate() {
        pairs[2 * index] = hex_digit(*byte / 16);
        pairs[2 * index + 1] = hex_digit(*byte % 16);
    }
}

/// Puts a run of bytes behind a text, each as two hexadecimal digits.
fn put_run(text: &mut Vec<u8>, run: &[u8]) -> Result<(), AllocError>
    requires { length run.now ≤ 32 }
    ensures { OnOk result (text.new.items ≡ text.old.items ++ flat_map hex_byte run.now) }
{
    let mut pairs = [0; 64];
    fill_pairs(&mut pairs, run);
    text.extend_from_slice(&pairs[..2 * run.len()])
}

/// Puts bytes behind a text, each as two hexadecimal digits, 32 bytes at a time.
fn put_pairs(text: &mut Vec<u8>, bytes: &[u8]) -> Result<(), AllocError>
    ensures { OnOk result (text.new.items ≡ text.old.items ++ flat_map hex_byte bytes.now) }
{
    let mut rest = bytes;
    while rest.len() > 32 {
        let (run, behind) = rest.split_at(32);
        put_run(text, run)?;
        rest = behind;
    }
    put_run(text, rest)
}

/// Whether all bytes of a run have a value. It looks at each of them, so that a processor may take
/// many at once.
fn have_value(run: &[u8], value: u8) -> bool
    ensures { result ≡ list_all (λ byte. byte == value) run.now }
{
    let mut all = true;
    for byte in run {
        all &= *byte == value;
    }
    all
}

/// Whether all bytes have a value. It stops behind the first run of 64 where one has another.
fn are_all(bytes: &[u8], value: u8) -> bool
    ensures { result ≡ list_all (λ byte. byte == value) bytes.now }
{
    let mut rest = bytes;
    while rest.len() > 64 {
        let (run, behind) = rest.split_at(64);
        if !have_value(run, value) {
            return false;
        }
        rest = behind;
    }
    have_value(rest, value)
}

/// Whether all bytes are as the first.
fn are_equal(bytes: &[u8]) -> bool
    ensures { result ≡ are_equal bytes.now }
{
    match bytes.first() {
        Some(first) => are_all(bytes, *first),
        None => true,
    }
}

/// Puts data behind a text.
#[tactic(auto, unfolding(crate::specs::Texts::data_text))]
pub(crate) fn put_data(text: &mut Vec<u8>, bytes: &[u8]) -> Result<(), AllocError>
    ensures { OnOk result (text.new.items ≡ text.old.items ++ data_text bytes.now) }
{
    if bytes.is_empty() {
        return put_str(text, "-");
    }
    if bytes.len() < 9 || !are_equal(bytes) {
        return put_pairs(text, bytes);
    }
    put_hex(text, bytes[0])?;
    put_number(text, "*", bytes.len() as u64)
}
