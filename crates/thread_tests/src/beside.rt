//! The scripts of the schedules' tests, whose calls stand beside one another, run by threads: whole, and with twenty stops.
use crate::running::{Task, runs_whole, wrong_stop};
use std::alloc::Global;
use std::sync::Wait;
use std::thread::Threads;

const IMAGE: &str = "64 4 16 16";

const TWO_WRITES: &str = "\
setup
open x /x wc
open y /y wc
thread
write x 61
thread
write y 62
";

const THREE_WRITES: &str = "\
setup
open x /x wc
open y /y wc
open z /z wc
thread
write x 61
thread
write y 62
thread
write z 63
";

// A name goes over that of a busy file.
const RENAME: &str = "\
setup
open f /f wc
write f 61
open g /g wc
write g 62
thread
write f 63
thread
rename /g /f
";

// A file's name goes while it is written.
const UNLINK: &str = "\
setup
open f /f rwc
write f 61*4098
open g /g wc
thread
pwrite f 4095 6262
thread
write g 63
thread
unlink /g
";

// While one thread writes the file is busy, so that they take turns.
const APPENDS: &str = "\
setup
open a /f wac
open b /f wac
thread
write a 616263
write a 616263
thread
write b 7879
write b 7879
";

// In sync mode the first write begins before the block of its file's end, and the third is within its file's length.
const FRONTS: &str = "\
setup
open x /x wc
write x 61*5000
open y /y wc
open z /z wc
write z 64*5000
thread
pwrite x 3700 62*1390
thread
write y 63
thread
pwrite z 4090 65*300
";

const SCRIPTS: [&str; 6] = [TWO_WRITES, THREE_WRITES, RENAME, UNLINK, APPENDS, FRONTS];

// The number of the first script that is not run whole in a mode, or is left by a stop in a way that the mode forbids.
fn wrong_script<R: Threads + Wait + Sync>(rt: &R, alloc: Global, mode: &str) -> Option<usize> {
    for (number, script) in SCRIPTS.iter().enumerate() {
        let task = Task {
            mode,
            image: IMAGE,
            script,
        };
        if !runs_whole(rt, alloc, task) || wrong_stop(rt, alloc, task, 130, 12).is_some() {
            return Some(number);
        }
    }
    None
}

#[test]
fn scripts_of_the_schedules(rt: HostRuntime) {
    assert_eq!(rt; wrong_script(&rt, rt.alloc(), "strict"), None);
}

#[test]
fn scripts_of_the_schedules_in_sync_mode(rt: HostRuntime) {
    assert_eq!(rt; wrong_script(&rt, rt.alloc(), "sync"), None);
}
