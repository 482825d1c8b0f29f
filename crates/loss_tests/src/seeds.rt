//! Eight threads of six calls each by forty seeds, and by ten in sync mode, on an image with four log lines and 56 data blocks.
//!
//! Of 16 writes four have a line of the log at a time, so that rounds end with calls that are given up; and one file has most of
//! the room, so that it is short while writes are in flight. Each run is that of the model. Then the power goes, so many steps
//! apart, each time with one of the choices in turn, and what is left is judged.
use split_tables::{Case, Stops, are_permitted_in_turn};
use std::alloc::Global;
use test_kit::Text;

const SCRIPT: &str = "\
setup
mkdir /d
open m /m rwc
write m 6d*131072
thread
open a /a wac
write a 6131
write a 6132
rename /a /d/a
stat /d/a
close a
thread
open b /b rwc
write b 62*5000
pwrite b 4090 7878787878787878
truncate b 4099
pread b 4090 20
unlink /b
thread
open c /c wc
write c 63
unlink /c
write c 6364
fsync c
close c
thread
open d /d/d wc
write d 64*9000
rename /d/d /a
list /d
open t /a rwct
write t 6474
thread
open e /a rwc
write e 6565
stat /b
mkdir /d/e
rmdir /d/e
close e
thread
pwrite m 0 66*16384
stat /m
pwrite m 8190 67676767
read m 4
unlink /c
stat /a
thread
open n /m wa
write n 6e*9000
pwrite m 4096 70*8192
truncate m 130000
fsync n
close n
thread
open h /h wct
write h 68*4096
dup h i
write i 69
rename /h /b
close h
";

// Every how many steps the power goes: 8 times 13. All stops that are 13 apart are tried by `tools/threads.py`.
const EVERY: u64 = 104;

// Whether the losses of a run are right, of which the first one is behind the set-up.
fn are_losses_right(alloc: Global, case: &Case, seed: u64) -> bool {
    let first = seed.saturating_mul(13) % EVERY;
    match Stops::of_all(alloc, case, first.saturating_add(18_600), EVERY) {
        Some(stops) => are_permitted_in_turn(alloc, case, &stops),
        None => false,
    }
}

// Whether a run and its losses are right.
fn is_case_right(alloc: Global, case: &Case, seed: u64) -> bool {
    case.calls() == 51 && case.runs_as_told(alloc) && are_losses_right(alloc, case, seed)
}

// Whether the run of a seed in a mode is right.
fn is_seed_right(alloc: Global, mode: &str, seed: u64) -> bool {
    let mut order = Text::new(alloc);
    order.put("seed ");
    order.put_number(seed);
    match Case::ordered(alloc, mode, "64 4 16 16", SCRIPT, order.as_str()) {
        Ok(case) => order.is_whole() && is_case_right(alloc, &case, seed),
        Err(_) => false,
    }
}

// The first of these seeds of which the run goes wrong.
fn wrong_seed(alloc: Global, mode: &str, first: u64, last: u64) -> Option<u64> {
    for seed in first..last {
        if !is_seed_right(alloc, mode, seed) {
            return Some(seed);
        }
    }
    None
}

#[test]
fn seeds_below_11(rt: HostRuntime) {
    assert_eq!(rt; wrong_seed(rt.alloc(), "strict", 1, 11), None);
}

#[test]
fn seeds_below_21(rt: HostRuntime) {
    assert_eq!(rt; wrong_seed(rt.alloc(), "strict", 11, 21), None);
}

#[test]
fn seeds_below_31(rt: HostRuntime) {
    assert_eq!(rt; wrong_seed(rt.alloc(), "strict", 21, 31), None);
}

#[test]
fn seeds_below_41(rt: HostRuntime) {
    assert_eq!(rt; wrong_seed(rt.alloc(), "strict", 31, 41), None);
}

#[test]
fn seeds_below_51_in_sync_mode(rt: HostRuntime) {
    assert_eq!(rt; wrong_seed(rt.alloc(), "sync", 41, 51), None);
}
