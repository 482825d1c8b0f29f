//! All orders of the events of two threads that write, each cut behind every event with each choice.
//!
//! A write takes six events: Begin, Fill, Claim, Store, Persist, Finish. Behind Persist it is on the medium, and behind Store
//! where the medium has all words of its entry: with `newest`, and not where it has those of even or of odd numbers alone.
use split_tables::{CHOICES, Case, left_by_cut};
use std::alloc::Global;
use test_kit::{Text, number, word};

const IMAGE: &str = "64 4 16 16";

const TWO_FILES: &str = "\
setup
open x /x wc
open y /y wc
thread
write x 61
thread
write y 62
";

// Two threads append by two handles of one file, twice each.
const ONE_FILE: &str = "\
setup
open a /f wac
open b /f wac
thread
write a 616263
write a 616263
thread
write b 7879
write b 7879
";

// How many events each of the two threads has, and both.
const EACH: u32 = 6;

const BOTH: u32 = 12;

// How many tests have each a part of the orders.
const PARTS: u32 = 4;

// The orders of the four writes of `ONE_FILE`, by their threads.
const TURNS: [&str; 6] = ["0011", "0101", "0110", "1001", "1010", "1100"];

// An order in which two threads are picked.
#[derive(Clone, Copy)]
enum Order {
    // Of the twelve events of `TWO_FILES`: each bit is a pick.
    Events(u32),
    // Of the four writes of `ONE_FILE`: while one is in flight its file is busy, and the other thread waits.
    Writes(&'static str),
}

// ---- two files

// Which thread a number picks at a place.
fn pick(bits: u32, place: u32) -> u32 {
    bits.checked_shr(place).unwrap_or(0) & 1
}

// What a place adds to the words of an order of events.
fn word_at(bits: u32, place: u32) -> &'static str {
    match (place, pick(bits, place)) {
        (0, 0) => "order 0",
        (0, _) => "order 1",
        (_, 0) => ",0",
        _ => ",1",
    }
}

// Adds the words of an order of events.
fn put_events(words: &mut Text, bits: u32) {
    for place in 0..BOTH {
        words.put(word_at(bits, place));
    }
}

// How many of the first events are those of thread 1.
fn ones(bits: u32, events: u32) -> u32 {
    let mut count: u32 = 0;
    for place in 0..events {
        count = count.saturating_add(pick(bits, place));
    }
    count
}

// Whether behind so many events thread 0 comes to its end first. Orders that begin alike are cut alike, and of them one does so.
fn is_first(bits: u32, events: u32) -> bool {
    let mut is_rising = true;
    for place in events..BOTH - 1 {
        is_rising = is_rising && pick(bits, place) <= pick(bits, place + 1);
    }
    is_rising
}

// Whether a write of which so many events came is there as it has to be.
fn is_right(is_there: bool, stage: u32, choice: &str) -> bool {
    match stage {
        0..=3 => !is_there,
        4 => match choice {
            "newest" => is_there,
            "7" => true,
            _ => !is_there,
        },
        _ => is_there,
    }
}

// Whether a tree has this line.
fn has_line(tree: &str, line: &str) -> bool {
    tree.lines().any(|it| it == line)
}

// Whether so many calls that returned, and a tree, are right behind so many events of an order of them.
fn is_shown(bits: u32, events: u32, choice: &str, returned: usize, tree: &str) -> bool {
    let one = ones(bits, events);
    let zero = events.saturating_sub(one);
    let done = 2 + usize::from(zero == EACH) + usize::from(one == EACH);
    returned == done
        && is_right(has_line(tree, "/x file 1 61"), zero, choice)
        && is_right(has_line(tree, "/y file 1 62"), one, choice)
}

// ---- one file

// What a write adds to the words of an order of writes: its thread is picked six times, and before each time the other one, which
// waits while it is in flight. So the first pick of a write is that of its thread alone.
fn word_of_turn(is_first: bool, turn: char) -> &'static str {
    match (is_first, turn) {
        (true, '0') => "order 0,1,0,1,0,1,0,1,0,1,0",
        (true, _) => "order 1,0,1,0,1,0,1,0,1,0,1",
        (_, '0') => ",0,1,0,1,0,1,0,1,0,1,0",
        _ => ",1,0,1,0,1,0,1,0,1,0,1",
    }
}

// Adds the words of an order of writes.
fn put_writes(words: &mut Text, turns: &str) {
    let mut is_first = true;
    for turn in turns.chars() {
        words.put(word_of_turn(is_first, turn));
        is_first = false;
    }
}

// What a write of a thread appends.
fn bytes_of(turn: char) -> &'static [u8] {
    match turn {
        '0' => b"616263",
        _ => b"7879",
    }
}

// Whether data are those of so many of the writes.
fn are_bytes_of(turns: &str, writes: usize, data: &[u8]) -> bool {
    let mut at: usize = 0;
    for turn in turns.chars().take(writes) {
        let bytes = bytes_of(turn);
        if !data.get(at..).unwrap_or(b"").starts_with(bytes) {
            return false;
        }
        at = at.saturating_add(bytes.len());
    }
    at == data.len()
}

// Whether a line `LENGTH DATA` of the file has its length.
fn has_length(file: &str) -> bool {
    match number(word(file, 0)) {
        Ok(number) => number == (word(file, 1).len() / 2) as u64,
        Err(_) => false,
    }
}

// Whether the file of a tree has so many of the writes.
fn has_writes(tree: &str, turns: &str, writes: usize) -> bool {
    for line in tree.lines() {
        if let Some(file) = line.strip_prefix("/f file ") {
            return has_length(file) && are_bytes_of(turns, writes, word(file, 1).as_bytes());
        }
    }
    false
}

// Whether so many calls that returned, and a tree, are right behind so many events of the four writes.
fn are_writes_shown(turns: &str, events: u32, choice: &str, returned: usize, tree: &str) -> bool {
    let (done, stage) = ((events / EACH) as usize, events % EACH);
    let is_there = done < 4 && has_writes(tree, turns, done.saturating_add(1));
    let is_whole = is_there || has_writes(tree, turns, done);
    returned == done.saturating_add(2) && is_whole && is_right(is_there, stage, choice)
}

// ---- each order

impl Order {
    // The script.
    fn script(self) -> &'static str {
        match self {
            Order::Events(_) => TWO_FILES,
            Order::Writes(_) => ONE_FILE,
        }
    }

    // Adds the words of the order.
    fn put(self, words: &mut Text) {
        match self {
            Order::Events(bits) => put_events(words, bits),
            Order::Writes(turns) => put_writes(words, turns),
        }
    }

    // How many events the threads have.
    fn events(self) -> u32 {
        match self {
            Order::Events(_) => BOTH,
            Order::Writes(_) => 4 * EACH,
        }
    }

    // Whether it is cut behind so many events.
    fn is_cut(self, events: u32) -> bool {
        match self {
            Order::Events(bits) => is_first(bits, events),
            Order::Writes(_) => true,
        }
    }

    // Whether so many calls that returned, and a tree, are right where it is cut behind so many events.
    fn is_shown(self, events: u32, choice: &str, returned: usize, tree: &str) -> bool {
        match self {
            Order::Events(bits) => is_shown(bits, events, choice, returned, tree),
            Order::Writes(turns) => are_writes_shown(turns, events, choice, returned, tree),
        }
    }

    // Whether what it leaves that is cut behind so many events is right.
    fn is_left(self, alloc: Global, case: &Case, events: u32, choice: &str) -> bool {
        // The set-up has two events.
        let cut = u64::from(events).saturating_add(2);
        match left_by_cut(alloc, case, cut, choice) {
            Some((returned, tree)) => self.is_shown(events, choice, returned, tree.as_str()),
            None => false,
        }
    }

    // Likewise with each choice.
    fn is_left_with_each(self, alloc: Global, case: &Case, events: u32) -> bool {
        for choice in &CHOICES {
            if !self.is_left(alloc, case, events, choice) {
                return false;
            }
        }
        true
    }

    // Whether each of its losses is right.
    fn are_cuts_right(self, alloc: Global, case: &Case) -> bool {
        for events in 0..self.events().saturating_add(1) {
            if self.is_cut(events) && !self.is_left_with_each(alloc, case, events) {
                return false;
            }
        }
        true
    }

    // Whether it goes right with these words.
    fn is_right_by(self, alloc: Global, words: &Text) -> bool {
        match Case::ordered(alloc, "strict", IMAGE, self.script(), words.as_str()) {
            Ok(case) => {
                words.is_whole() && case.runs_as_told(alloc) && self.are_cuts_right(alloc, &case)
            }
            Err(_) => false,
        }
    }

    // Whether it goes right.
    fn is_right(self, alloc: Global) -> bool {
        let mut words = Text::new(alloc);
        self.put(&mut words);
        self.is_right_by(alloc, &words)
    }
}

// The first order of a part that goes wrong, if there is one; or 4,096 where the orders of all parts are not 924.
fn wrong_order(alloc: Global, part: u32) -> Option<u32> {
    let mut count: u32 = 0;
    for bits in 0..4096_u32 {
        if bits.count_ones() == EACH {
            if count % PARTS == part && !Order::Events(bits).is_right(alloc) {
                return Some(bits);
            }
            count = count.saturating_add(1);
        }
    }
    (count != 924).then_some(4096)
}

#[test]
fn first_part_of_the_orders(rt: HostRuntime) {
    assert_eq!(rt; wrong_order(rt.alloc(), 0), None);
}

#[test]
fn second_part_of_the_orders(rt: HostRuntime) {
    assert_eq!(rt; wrong_order(rt.alloc(), 1), None);
}

#[test]
fn third_part_of_the_orders(rt: HostRuntime) {
    assert_eq!(rt; wrong_order(rt.alloc(), 2), None);
}

#[test]
fn last_part_of_the_orders(rt: HostRuntime) {
    assert_eq!(rt; wrong_order(rt.alloc(), 3), None);
}

// The first turns that go wrong.
fn wrong_turns(alloc: Global) -> Option<&'static str> {
    for turns in &TURNS {
        if !Order::Writes(turns).is_right(alloc) {
            return Some(*turns);
        }
    }
    None
}

#[test]
fn two_threads_append_by_two_handles(rt: HostRuntime) {
    assert_eq!(rt; wrong_turns(rt.alloc()), None);
}
