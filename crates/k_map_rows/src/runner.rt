//! Runs rows, each on an image of its own, which is checked by the rules and opened for each line.
ghost use Rattle.std.specs.Prelude.{OnOk};
ghost use Rattle.k_map_tests.specs.pm_model.Cells.{AllHome};
ghost use Rattle.k_map_tests.specs.Calls.{IsFresh};

use crate::contents::put_content;
use crate::entering::three_entered;
use crate::lending::stored;
use crate::publishing::three_runs;
use crate::reading::{first_word, numbers};
use crate::shown::{put_bytes, put_map, put_reply};
use crate::stops::{asked_of, done, line_stopped};
use k_map_tests::{MapCall, Reply, begun, left, made, opened};
use k_split::KSplit;
use pm_lines::Power;
use std::alloc::Global;
use test_kit::{RowError, Text, asked, option, row_told, small_number};

// Fills every second block of a file from block 0 on, each by a call.
fn spread(alloc: Global, k: &mut KSplit, ino: u32, count: u32) -> Result<Reply, RowError>
    requires { IsFresh k.old }
    ensures { OnOk result (IsFresh k.new) }
{
    for place in 0..count.min(2048) {
        let asked = MapCall::Fill {
            ino,
            first: 2 * place,
            count: 1,
        };
        let reply = made(alloc, k, &asked)?;
        if reply != Reply::Done {
            return Ok(reply);
        }
    }
    Ok(Reply::Done)
}

// Makes a change, with power that lasts.
fn made_whole(k: &mut KSplit, alloc: Global, name: &str, numbers: &[u32]) -> Result<Reply, RowError>
    requires { IsFresh k.old }
    ensures { OnOk result (AllHome k.new.cells) }
{
    let asked = asked_of(name, numbers)?;
    let mut power = Power::always();
    done(k, alloc, &asked, &mut power)
}

// Makes the change that a line asks for, by its first word and its numbers.
fn changed(k: &mut KSplit, alloc: Global, name: &str, numbers: &[u32]) -> Result<Reply, RowError>
    requires { IsFresh k.old }
    ensures { OnOk result (AllHome k.new.cells) }
{
    match (name, numbers) {
        ("lend", &[staging, block, word, value]) => {
            stored(k, alloc, staging, block, word, u64::from(value))
        }
        ("spread", &[ino, count]) => Ok(spread(alloc, k, ino, count)?),
        _ => made_whole(k, alloc, name, numbers),
    }
}

// The same of an image, with the reply told.
fn change(
    text: &mut Text,
    alloc: Global,
    image: &mut Vec<u8>,
    name: &str,
    numbers: &[u32],
) -> Result<(), RowError> {
    let mut k = opened(alloc, image)?;
    let reply = changed(&mut k, alloc, name, numbers)?;
    *image = left(alloc, k)?;
    put_reply(text, reply);
    Ok(())
}

fn put_free(text: &mut Text, k: &KSplit) {
    text.put_number(u64::from(k.free_blocks()));
}

// Adds what a line asks to be shown.
fn show(
    text: &mut Text,
    alloc: Global,
    k: &KSplit,
    name: &str,
    numbers: &[u32],
) -> Result<(), RowError>
    requires { IsFresh k.now }
{
    match (name, numbers) {
        ("map", &[ino]) => put_map(text, alloc, k, ino),
        ("bytes", &[ino, at, count]) => put_bytes(text, k, ino, at, count),
        ("free", &[]) => {
            put_free(text, k);
            Ok(())
        }
        ("reads", &[]) => put_content(text, k, &three_runs()),
        _ => Err(RowError::Misspelled),
    }
}

// The same of an image.
fn show_image(
    text: &mut Text,
    alloc: Global,
    image: &[u8],
    name: &str,
    numbers: &[u32],
) -> Result<(), RowError> {
    let k = opened(alloc, image)?;
    show(text, alloc, &k, name, numbers)
}

// Puts the entries of the three runs into an image.
fn enter(text: &mut Text, alloc: Global, image: &mut Vec<u8>) -> Result<(), RowError> {
    text.put("ok");
    three_entered(alloc, image)
}

// Adds what is answered to a line, by its first word and what stands behind it.
fn answer(
    text: &mut Text,
    alloc: Global,
    image: &mut Vec<u8>,
    name: &str,
    rest: &str,
) -> Result<(), RowError> {
    match name {
        "cut" | "torn" | "kept" => line_stopped(text, alloc, image, name, rest),
        "map" | "bytes" | "free" | "reads" => {
            show_image(text, alloc, image, name, &numbers(alloc, rest)?)
        }
        "enter" => enter(text, alloc, image),
        _ => change(text, alloc, image, name, &numbers(alloc, rest)?),
    }
}

// Adds what is answered to each line of a row.
fn answer_all(
    text: &mut Text,
    alloc: Global,
    image: &mut Vec<u8>,
    row: &str,
) -> Result<(), RowError> {
    for line in row.lines() {
        if let Some((call, _)) = asked(line) {
            let (name, rest) = first_word(call);
            answer(text, alloc, image, name, rest)?;
            text.put("\n");
        }
    }
    Ok(())
}

// How many blocks the image has that a row begins on.
fn blocks_of(row: &str) -> Result<u32, RowError> {
    match option(row, "image") {
        None => Ok(128),
        Some(blocks) => small_number(blocks),
    }
}

// The image that a row begins on.
fn image_of(alloc: Global, row: &str) -> Result<Vec<u8>, RowError> {
    left(alloc, begun(alloc, blocks_of(row)?)?)
}

// Checks an image by the rules.
fn check(alloc: Global, image: &[u8]) -> Result<(), RowError> {
    let _k = opened(alloc, image)?;
    Ok(())
}

// Adds the answers to a row. The image that it leaves is checked too.
fn put_answers(text: &mut Text, alloc: Global, row: &str) -> Result<(), RowError> {
    let mut image = image_of(alloc, row)?;
    answer_all(text, alloc, &mut image, row)?;
    check(alloc, &image)
}

// How a row goes: `ok`, or the first line that is answered otherwise.
pub(crate) fn told(alloc: Global, row: &str) -> Result<String, RowError> {
    let mut text = Text::new(alloc);
    put_answers(&mut text, alloc, row)?;
    row_told(alloc, row, &text.end()?)
}
