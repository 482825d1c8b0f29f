//! Scripts that are drawn from a seed.
//!
//! The calls stand in templates, parted by `;`, of which one is drawn: small letters stand for themselves, and each great one for a word
//! or a number that is drawn: a handle `H`, a path `P`, flags `F`, a byte `B`, an offset `N`, a count `C` and a short one `S`.
use std::alloc::Global;
use test_kit::{Draws, Text};

const HANDLES: &str = "close H;dup H H;open H P F;open H P F;open H P F;open H P F";

const NAMES: &str = "mkdir P;rmdir P;unlink P;unlink P;rename P P;stat P;list P";

const LOOKS: &str = "read H S;pread H N S;seek H set N;seek H end -S";

const SIZES: &str = "truncate H N;fsync H";

const PUTS: &str = "write H B*C;pwrite H N B*C";

// Of sixteen calls so many are of each kind.
const CALLS: [&str; 16] = [
    HANDLES, HANDLES, HANDLES, HANDLES, NAMES, NAMES, LOOKS, LOOKS, LOOKS, SIZES, SIZES, PUTS,
    PUTS, PUTS, PUTS, PUTS,
];

// One of some words.
fn one_of<'a>(draws: &mut Draws, words: &'a str, between: char) -> &'a str {
    let count = words.split(between).count();
    let place = draws.wide_below(count as u64);
    words.split(between).nth(place as usize).unwrap_or("")
}

// The words that a letter stands for.
fn words_of(letter: char) -> &'static str {
    match letter {
        'H' => "a b c d",
        'P' => "/f /g /h /d/f /d/g /d",
        'F' => "rwc rwct rwac wc rw r",
        'B' => "61 62 63 64",
        _ => "",
    }
}

// The least of the numbers that a letter stands for, and how many they are.
fn numbers_of(letter: char) -> (u64, u64) {
    match letter {
        'N' => (0, 20_000),
        'C' => (1, 9_000),
        'S' => (1, 300),
        _ => (0, 0),
    }
}

// Adds what a letter of a template stands for.
fn put_letter(script: &mut Text, draws: &mut Draws, letter: char) {
    let words = words_of(letter);
    let (least, count) = numbers_of(letter);
    if !words.is_empty() {
        script.put(one_of(draws, words, ' '));
    } else if count > 0 {
        script.put_number(draws.wide_below(count).saturating_add(least));
    } else {
        script.put_char(letter);
    }
}

// Adds so many calls of one thread.
pub(crate) fn put_calls(script: &mut Text, draws: &mut Draws, calls: u64) {
    for _ in 0..calls {
        let kind = CALLS[draws.below(16) as usize];
        let template = one_of(draws, kind, ';');
        put_call(script, draws, template);
    }
}

// Adds a call of a template.
fn put_call(script: &mut Text, draws: &mut Draws, template: &str) {
    for letter in template.chars() {
        put_letter(script, draws, letter);
    }
    script.put("\n");
}

// Adds so many calls of each of two threads.
pub(crate) fn put_threads(script: &mut Text, draws: &mut Draws, calls: u64) {
    script.put("thread\n");
    put_calls(script, draws, calls);
    script.put("thread\n");
    put_calls(script, draws, calls);
}

// ---- changes of names

// A change of a name, and a look at a directory: of two paths, `1` and `2`.
const CHANGES: &str =
    "mkdir 1;list 2,open h 1 wcx;close h,rmdir 1;list 2,unlink 1;stat 2,list /,rename 1 2;list 2,rename 1 2;list 2";

// A path of one to three names of four.
fn deep_path(alloc: Global, draws: &mut Draws) -> Text {
    let mut path = Text::new(alloc);
    for _ in 0..draws.below(3) + 1 {
        path.put(one_of(draws, "/a /b /c /d", ' '));
    }
    path
}

// Adds the calls of a template with two paths.
fn put_filled(script: &mut Text, template: &str, one: &Text, other: &Text) {
    for letter in template.chars() {
        match letter {
            '1' => script.put_text(one),
            '2' => script.put_text(other),
            ';' => script.put("\n"),
            _ => script.put_char(letter),
        }
    }
    script.put("\n");
}

// Adds so many changes of names by one thread, each with a call that lists a directory.
pub(crate) fn put_changes(script: &mut Text, alloc: Global, draws: &mut Draws, changes: u64) {
    for _ in 0..changes {
        let one = deep_path(alloc, draws);
        let other = deep_path(alloc, draws);
        put_filled(script, one_of(draws, CHANGES, ','), &one, &other);
    }
}
