//! Reads a line: its first word, its numbers, and the call on maps that it asks for.
use k_map_tests::{MapCall, Put};
use k_split::Move;
use std::alloc::Global;
use test_kit::{RowError, small_number};

// The first word of a line, and what stands behind it.
pub(crate) fn first_word(line: &str) -> (&str, &str) {
    line.split_once(' ').unwrap_or((line, ""))
}

// The numbers that words spell.
pub(crate) fn numbers(alloc: Global, words: &str) -> Result<Vec<u32>, RowError> {
    let mut numbers = Vec::new(alloc);
    for word in words.split(' ') {
        if !word.is_empty() {
            numbers.push(small_number(word)?)?;
        }
    }
    Ok(numbers)
}

fn bytes_at(at: u32, count: u32, byte: u32) -> Put {
    Put {
        at,
        count,
        byte: (byte % 256) as u8,
    }
}

// The first word of a call.
fn name_of(call: &MapCall) -> &'static str {
    match call {
        MapCall::Size { .. } => "size",
        MapCall::Fill { .. } => "fill",
        MapCall::Take { .. } => "take",
        MapCall::Give { .. } => "give",
        MapCall::Relink(_) => "move",
        MapCall::Write { .. } => "write",
        MapCall::Stage { .. } => "stage",
        MapCall::Clean { .. } => "clean",
    }
}

// The call of two numbers.
fn pair_call(name: &str, ino: u32, number: u32) -> MapCall {
    match name {
        "take" => MapCall::Take {
            staging: ino,
            count: number,
        },
        "clean" => MapCall::Clean { ino, from: number },
        _ => MapCall::Size { ino, size: number },
    }
}

// The call of these numbers.
fn numbered_call(name: &str, numbers: &[u32]) -> Option<MapCall> {
    match numbers {
        &[staging] => Some(MapCall::Give { staging }),
        &[ino, number] => Some(pair_call(name, ino, number)),
        &[ino, first, count] => Some(MapCall::Fill { ino, first, count }),
        &[ino, at, count, byte] => Some(MapCall::Write {
            ino,
            bytes: bytes_at(at, count, byte),
        }),
        &[staging, block, at, count, byte] => Some(MapCall::Stage {
            staging,
            block,
            bytes: bytes_at(at, count, byte),
        }),
        &[
            staging,
            staging_block,
            ino,
            file_block,
            count,
            size,
            applied,
        ] => {
            Some(MapCall::Relink(Move {
                staging,
                staging_block,
                ino,
                file_block,
                count,
                size: u64::from(size),
                applied: u64::from(applied),
            }))
        }
        _ => None,
    }
}

// The call of a line, by its first word and its numbers, of which it has as many as that word asks for.
pub(crate) fn call_of(name: &str, numbers: &[u32]) -> Result<MapCall, RowError> {
    match numbered_call(name, numbers) {
        Some(call) if name_of(&call) == name => Ok(call),
        _ => Err(RowError::Misspelled),
    }
}
