//! Edits of files in memory, by the lines of a table.
use crate::entries::put_entry;
use outside::{Files, MemFiles};
use split_cases::rows;
use std::alloc::{AllocError, Global};
use test_kit::{RowError, word};

fn number(word: &str) -> Result<usize, RowError> {
    Ok(test_kit::number(word)? as usize)
}

fn byte(word: &str) -> Result<u8, RowError> {
    word.parse::<u8>().ok().ok_or(RowError::Misspelled)
}

// A file gets the bytes of another.
pub(crate) fn copy(
    alloc: Global,
    files: &mut MemFiles,
    from: &str,
    to: &str,
) -> Result<(), RowError> {
    let bytes = files.read(alloc, from)?;
    files.replace(to, &bytes)?;
    Ok(())
}

// `PLACE BYTE BYTE ..`: these bytes stand from that place on, as far as there are such places.
fn set_in(bytes: &mut [u8], words: &str) -> Result<(), RowError> {
    let mut words = words.split(' ');
    let mut place = number(words.next().unwrap_or(""))?;
    for value in words {
        let value = byte(value)?;
        if place < bytes.len() {
            bytes[place] = value;
        }
        place = place.saturating_add(1);
    }
    Ok(())
}

// `PLACE COUNT BYTE`: so many of this byte stand from that place on, as far as there are such places.
fn fill_in(bytes: &mut [u8], words: &str) -> Result<(), RowError> {
    let (place, count) = (number(word(words, 0))?, number(word(words, 1))?);
    let value = byte(word(words, 2))?;
    for at in place..place.saturating_add(count) {
        if at < bytes.len() {
            bytes[at] = value;
        }
    }
    Ok(())
}

// Ten numbers.
fn numbers_of(words: &str) -> Result<[u64; 10], RowError> {
    let mut numbers = [0_u64; 10];
    let mut words = words.split(' ');
    for place in numbers.iter_mut() {
        *place = test_kit::number(words.next().unwrap_or(""))?;
    }
    if words.next().is_some() {
        return Err(RowError::Misspelled);
    }
    Ok(numbers)
}

// `PLACE NUMBER ..`: the line at that place is an entry with these ten numbers, and its check.
fn entry_in(bytes: &mut [u8], words: &str) -> Result<(), RowError> {
    let (place, words) = words.split_once(' ').unwrap_or((words, ""));
    let (place, numbers) = (number(place)?, numbers_of(words)?);
    put_entry(bytes, place, &numbers);
    Ok(())
}

// `LENGTH`: there are so many bytes at most.
fn cut_in(bytes: &mut Vec<u8>, length: &str) -> Result<(), RowError> {
    bytes.truncate(number(length)?);
    Ok(())
}

// An edit of bytes.
fn edit_in(bytes: &mut Vec<u8>, edit: &str, words: &str) -> Result<(), RowError> {
    match edit {
        "cut" => cut_in(bytes, words),
        "set" => set_in(bytes, words),
        "fill" => fill_in(bytes, words),
        "entry" => entry_in(bytes, words),
        _ => Err(RowError::Misspelled),
    }
}

// An edit of the bytes of a file.
pub(crate) fn change(
    alloc: Global,
    files: &mut MemFiles,
    edit: &str,
    name: &str,
    words: &str,
) -> Result<(), RowError> {
    let mut bytes = files.read(alloc, name)?;
    edit_in(&mut bytes, edit, words)?;
    files.replace(name, &bytes)?;
    Ok(())
}

// Adds lines, parted by `; `.
fn add_lines(bytes: &mut Vec<u8>, lines: &str) -> Result<(), AllocError> {
    for line in lines.split("; ") {
        bytes.extend_from_slice(line.as_bytes())?;
        bytes.extend_from_slice(b"\n")?;
    }
    Ok(())
}

// `NAME LINES`: the file has these lines, or nothing where there is none.
fn file(alloc: Global, files: &mut MemFiles, words: &str) -> Result<(), RowError> {
    let mut bytes = Vec::new(alloc);
    let name = match words.split_once(' ') {
        None => words,
        Some((name, lines)) => {
            add_lines(&mut bytes, lines)?;
            name
        }
    };
    files.replace(name, &bytes)?;
    Ok(())
}

// `NAME K`: the file has the script of the worked run K, counted from 0.
fn script(files: &mut MemFiles, name: &str, place: &str) -> Result<(), RowError> {
    let script = rows().get(number(place)?).ok_or(RowError::Misspelled)?;
    files.replace(name, script.as_bytes())?;
    Ok(())
}

// Carries out an edit: `copy FROM TO`, `cut NAME LENGTH`, `set NAME PLACE BYTE ..`, `fill NAME PLACE COUNT BYTE`,
// `entry NAME PLACE NUMBER ..`, `script NAME K`, `file NAME LINE`.
fn edit(alloc: Global, files: &mut MemFiles, line: &str) -> Result<(), RowError> {
    let (edit, words) = line.split_once(' ').unwrap_or((line, ""));
    let (name, more) = words.split_once(' ').unwrap_or((words, ""));
    match edit {
        "file" => file(alloc, files, words),
        "copy" => copy(alloc, files, name, more),
        "script" => script(files, name, more),
        _ => change(alloc, files, edit, name, more),
    }
}

// Whether the line is an edit, which is carried out.
pub(crate) fn was_edit(alloc: Global, files: &mut MemFiles, line: &str) -> bool {
    edit(alloc, files, line).is_ok()
}
