//! Words, numbers, paths and handles, put behind a text.
ghost use Rattle.std.specs.Prelude.{◌≡◌, ◌++◌, ◌∷◌, OnOk, decimal, flat_map};
ghost use Rattle.std.specs.Fmt.{signed_decimal};
ghost use Rattle.posix_tables.specs.Places.{printed};
ghost use Rattle.report_text.specs.Texts.{handle_text};

use itoa::Buffer;
use posix_types::{Handle, Name, Path};
use std::alloc::AllocError;

/// Puts a word behind a text.
pub(crate) fn put_str(text: &mut Vec<u8>, word: &str) -> Result<(), AllocError>
    ensures { OnOk result (text.new.items ≡ text.old.items ++ word.now) }
{
    text.extend_from_slice(word.as_bytes())
}

/// Puts a word and then a number in decimal behind a text.
pub(crate) fn put_number(text: &mut Vec<u8>, word: &str, number: u64) -> Result<(), AllocError>
    ensures { OnOk result (text.new.items ≡ text.old.items ++ word.now ++ decimal number) }
{
    let mut digits = Buffer::new();
    put_str(text, word)?;
    put_str(text, digits.format(number))
}

/// Puts a word and then a number in decimal behind a text, with a sign where it is below zero.
pub(crate) fn put_signed(text: &mut Vec<u8>, word: &str, number: i64) -> Result<(), AllocError>
    ensures { OnOk result (text.new.items ≡ text.old.items ++ word.now ++ signed_decimal number) }
{
    let mut digits = Buffer::new();
    put_str(text, word)?;
    put_str(text, digits.format(number))
}

/// Puts names behind a text, each behind a blank.
pub(crate) fn put_names(text: &mut Vec<u8>, names: &[Name]) -> Result<(), AllocError>
    ensures { OnOk result (text.new.items ≡ text.old.items ++ flat_map (λ name. 32 ∷ name) names.now) }
{
    for name in names {
        text.push(b' ')?;
        text.extend_from_slice(&name.bytes)?;
    }
    Ok(())
}

/// Puts the names of a path behind a text, each behind a slash.
fn put_steps(text: &mut Vec<u8>, names: &[Name]) -> Result<(), AllocError>
    ensures { OnOk result (text.new.items ≡ text.old.items ++ flat_map (λ name. 47 ∷ name) names.now) }
{
    for name in names {
        text.push(b'/')?;
        text.extend_from_slice(&name.bytes)?;
    }
    Ok(())
}

/// Puts a path behind a text.
pub(crate) fn put_path(text: &mut Vec<u8>, path: &Path) -> Result<(), AllocError>
    ensures { OnOk result (text.new.items ≡ text.old.items ++ printed path.now) }
{
    if path.names.is_empty() {
        return put_str(text, "/");
    }
    put_steps(text, &path.names)
}

/// Puts a handle behind a text.
pub(crate) fn put_handle(text: &mut Vec<u8>, handle: Handle) -> Result<(), AllocError>
    ensures { OnOk result (text.new.items ≡ text.old.items ++ handle_text handle) }
{
    let len = usize::from(handle.len).min(handle.bytes.len());
    text.extend_from_slice(&handle.bytes[..len])
}
