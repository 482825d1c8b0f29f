//! Rounds that end while calls are in flight, for a lap, for room and for staging, and eight threads that change names beside writes: the
//! scripts of `loss_tests`, by threads.
use crate::running::{Task, runs_whole, wrong_stop};
use std::alloc::Global;
use std::sync::Wait;
use std::thread::Threads;

const SMALL: &str = "64 4 16 16";

// Five writes, and four lines of the log.
const LAP: &str = "\
setup
open a /a wc
open b /b wc
open c /c wc
open d /d wc
open e /e wc
thread
write a 61
thread
write b 62
thread
write c 63
thread
write d 64
thread
write e 65
";

// While /a is overwritten there is no room for the write to /b.
const ROOM: &str = "\
setup
open a /a wc
write a 61*98304
open b /b wc
thread
pwrite a 0 63*98304
thread
write b 62*16384
";

// Eight writes take all 256 blocks of the staging files.
const STAGING: &str = "\
setup
open x /x wc
open y /y wc
thread
write x 61*131072
write x 61*131072
write x 61*131072
write x 61*131072
write x 61*131072
write x 61*131072
write x 61*131072
write x 61
thread
write y 62*131072
";

// One file has most of the room, so that it is short while writes are in flight, and names come, move and go beside them.
const NAMES: &str = "\
setup
mkdir /d
open m /m rwc
write m 6d*131072
thread
open a /a wac
write a 6131
write a 6132
rename /a /d/a
stat /d/a
close a
thread
open b /b rwc
write b 62*5000
pwrite b 4090 7878787878787878
truncate b 4099
pread b 4090 20
unlink /b
thread
open c /c wc
write c 63
unlink /c
write c 6364
fsync c
close c
thread
open d /d/d wc
write d 64*9000
rename /d/d /a
list /d
open t /a rwct
write t 6474
thread
open e /a rwc
write e 6565
stat /b
mkdir /d/e
rmdir /d/e
close e
thread
pwrite m 0 66*16384
stat /m
pwrite m 8190 67676767
read m 4
unlink /c
stat /a
thread
open n /m wa
write n 6e*9000
pwrite m 4096 70*8192
truncate m 130000
fsync n
close n
thread
open h /h wct
write h 68*4096
dup h i
write i 69
rename /h /b
close h
";

fn task(image: &'static str, script: &'static str) -> Task<'static> {
    Task {
        mode: "strict",
        image,
        script,
    }
}

// Whether a script is run whole, and the first of twenty stops that is wrong.
fn told<R: Threads + Wait + Sync>(
    rt: &R,
    alloc: Global,
    script: &'static str,
    apart: u64,
    calls: usize,
) -> (bool, Option<u64>) {
    let task = task(SMALL, script);
    (
        runs_whole(rt, alloc, task),
        wrong_stop(rt, alloc, task, apart, calls),
    )
}

#[test]
fn a_round_ends_for_a_lap(rt: HostRuntime) {
    assert_eq!(rt; told(&rt, rt.alloc(), LAP, 60, 10), (true, None));
}

#[test]
fn a_round_ends_for_room(rt: HostRuntime) {
    assert_eq!(rt; told(&rt, rt.alloc(), ROOM, 1_000, 5), (true, None));
}

#[test]
fn a_round_ends_for_staging(rt: HostRuntime) {
    assert!(rt; runs_whole(&rt, rt.alloc(), task("2048 64 16 16", STAGING)));
}

// The set-up takes 18,464 steps of its own to fill its write.
#[test]
fn names_change_beside_writes(rt: HostRuntime) {
    assert_eq!(rt; told(&rt, rt.alloc(), NAMES, 1_000, 51), (true, None));
}
