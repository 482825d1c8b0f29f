//! One append to a log of one line, with a power of every number of steps up to 16.
use crate::lines::{draft, lines_of};
use image_layout::u64_at;
use oplog_entry::encode;
use oplog_tail::{Appended, OpLog};
use pm_lines::{Line, Power};
use std::alloc::{AllocError, Global};
use std::test::Fail;

const BASE: u64 = 3;

// Whether the words that the steps reached are the entry's, and the others zeros; from 10 steps on each is
// alone, and before each word that was stored has a second candidate.
fn is_left_at(line: &Line, steps: u32) -> bool {
    let entry = encode(&draft(0, 1), BASE);
    let mut is_so = true;
    for word in 0..8 {
        let stored = word < steps;
        let value = if stored {
            u64_at(&entry, 8 * word as usize)
        } else {
            0
        };
        if line.single(word) != (steps >= 10 || !stored) || line.read_word(word) != value {
            is_so = false;
        }
    }
    is_so
}

// The append is Done where a step is left after its ten.
fn is_as_stated_at(alloc: Global, steps: u32) -> Result<bool, AllocError> {
    let (log, mut seats) = OpLog::open(alloc, lines_of(alloc, 1)?, BASE, 1)?;
    let mut power = Power::after(u64::from(steps));
    let answer = log.append(&mut seats[0], &mut power, &draft(0, 1));
    let lines = log.close(seats);
    let is_done = matches!(answer, Appended::Done(_));
    let is_lost = matches!(answer, Appended::PowerLost);
    Ok(is_done == (steps > 10) && is_lost == (steps <= 10) && is_left_at(&lines[0], steps))
}

#[test]
fn lost_at_each_step(rt: HostRuntime) -> Result<(), Fail> {
    for steps in 0..17 {
        assert!(rt; is_as_stated_at(rt.alloc(), steps)?, "after {steps} steps");
    }
    Ok(())
}
