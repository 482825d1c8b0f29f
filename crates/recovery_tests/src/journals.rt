//! Journals that are pending, with each number of records from 1 to 128.
//!
//! An image of 64 blocks, 4 log lines, 128 inode lines and 128 name lines: its journal stands from byte 4,096 on, two lines a record, its
//! inode lines from 20,480 and its name lines from 28,672. 62 directories stand in the root. Where the journal has so many of their lines,
//! zeros stand in the lines' own places.
use crate::images::{ALL, CHOICES, copied, fresh, left, shows};
use pm_lines::Choice;
use split_tables::put_number;
use std::alloc::Global;
use test_kit::Text;

const INODES: usize = 20_480;

const NAMES: usize = 28_672;

const DIRECTORIES: usize = 62;

// The place of line k: an inode line of a directory, then its name line, and so on; then the lines of the four staging files.
fn place_of(k: usize) -> usize {
    let pair = k / 2;
    let half = if pair < DIRECTORIES { k % 2 } else { 0 };
    if half == 1 {
        return NAMES.saturating_add(pair.saturating_mul(64));
    }
    let ino = if pair < DIRECTORIES {
        pair.saturating_add(5)
    } else {
        k.saturating_sub(2 * DIRECTORIES).saturating_add(1)
    };
    INODES.saturating_add(ino.saturating_mul(64))
}

const LETTERS: &str = "abcdefghijklmnopqrstuvwxyz";

// The two letters of the name of a directory, by their places.
fn name_of(directory: usize) -> (usize, usize) {
    (directory / 26, directory % 26)
}

// Its name line.
fn put_name(image: &mut [u8], line: usize, directory: usize) {
    let (first, second) = name_of(directory);
    let ino = directory.saturating_add(5) as u64;
    put_number(image, line.saturating_add(4), 4, ino);
    put_number(image, line.saturating_add(8), 1, 2);
    put_number(image, line.saturating_add(16), 1, (97 + first % 26) as u64);
    put_number(image, line.saturating_add(17), 1, (97 + second % 26) as u64);
}

// A directory of the image: its inode line, and its name line.
fn put_directory(image: &mut [u8], directory: usize) {
    let node = place_of(directory.saturating_mul(2));
    let line = place_of(directory.saturating_mul(2).saturating_add(1));
    put_number(image, node, 1, 1);
    put_number(image, node.saturating_add(4), 4, 1);
    put_name(image, line, directory);
}

// The image with the directories.
fn whole(alloc: Global) -> Vec<u8> {
    let mut image = fresh(alloc, "64 4 128 128");
    for directory in 0..DIRECTORIES {
        put_directory(&mut image, directory);
    }
    image
}

// The letter at a place.
fn letter(place: usize) -> &'static str {
    LETTERS.get(place..place.saturating_add(1)).unwrap_or("")
}

// What is printed of its tree.
fn put_tree(text: &mut Text) {
    text.put("/ dir\n");
    for directory in 0..DIRECTORIES {
        let (first, second) = name_of(directory);
        text.put("/");
        text.put(letter(first));
        text.put(letter(second));
        text.put(" dir\n");
    }
}

// A line stands in a record of the journal, and zeros stand in its own place.
fn put_record(bytes: &mut [u8], image: &[u8], k: usize) {
    let place = place_of(k);
    let record = k.saturating_mul(128).saturating_add(4096);
    put_number(bytes, record, 8, (place / 64) as u64);
    for at in 0..64_usize {
        let byte = image.get(place.saturating_add(at)).copied().unwrap_or(0);
        let copy = record.saturating_add(64).saturating_add(at);
        put_number(bytes, copy, 1, u64::from(byte));
        put_number(bytes, place.saturating_add(at), 1, 0);
    }
}

// The image with its first lines in the journal alone.
fn pending(alloc: Global, image: &[u8], records: usize) -> Vec<u8> {
    let mut bytes = copied(alloc, image);
    put_number(&mut bytes, 64, 8, records as u64);
    for k in 0..records.min(128) {
        put_record(&mut bytes, image, k);
    }
    bytes
}

// Whether the tree is shown by what is left where the mount of an image is cut at a step, and cut again, with a choice.
fn is_left(alloc: Global, image: &[u8], tree: &str, choice: Choice, steps: u64) -> bool {
    let left = left(alloc, image, choice, &[steps, steps, ALL]);
    shows(alloc, &left, tree)
}

// Likewise with each choice, each at a step of its own.
fn is_left_with_each(alloc: Global, image: &[u8], tree: &str, records: usize) -> bool {
    let every = (records as u64).saturating_mul(3);
    let mut steps: u64 = 0;
    for choice in &CHOICES {
        if !is_left(alloc, image, tree, *choice, steps) {
            return false;
        }
        steps = steps.saturating_add(every);
    }
    true
}

// Whether the tree is shown with so many records: by the pending image, and by what is left where its mount is cut, and cut again.
fn is_shown(alloc: Global, image: &[u8], tree: &str, records: usize) -> bool {
    let pending = pending(alloc, image, records);
    shows(alloc, &pending, tree) && is_left_with_each(alloc, &pending, tree, records)
}

// Whether so many records are refused.
fn is_refused(alloc: Global, image: &[u8], records: usize) -> bool {
    let pending = pending(alloc, image, records);
    shows(alloc, &pending, "splitfs: bad image: rule 11 at 128\n")
}

// The first number of records, of those from 1 to 128, with which the tree is not shown; or 129 where that is not refused.
fn wrong_records(alloc: Global, image: &[u8], tree: &str) -> Option<usize> {
    for records in 1..129_usize {
        if !is_shown(alloc, image, tree, records) {
            return Some(records);
        }
    }
    (!is_refused(alloc, image, 129)).then_some(129)
}

// Likewise of the image with the directories.
fn wrong_of_whole(alloc: Global) -> Option<usize> {
    let image = whole(alloc);
    let mut tree = Text::new(alloc);
    put_tree(&mut tree);
    wrong_records(alloc, &image, tree.as_str())
}

#[test]
fn each_number_of_records(rt: HostRuntime) {
    assert_eq!(rt; wrong_of_whole(rt.alloc()), None);
}
