//! Two threads that meet in the gate: the one waits there, outside the turn, until the other has come.
use crate::running::{Task, is_whole, ran_by};
use crate::writing::put_thread;
use oplog_tail::Receipt;
use split_tables::Gate;
use std::alloc::Global;
use std::sync::Wait;
use std::sync::atomic::Ordering::SeqCst;
use std::sync::atomic::{AtomicBool, AtomicU64};
use std::thread::Threads;
use test_kit::Text;

// How many writes each thread has.
const EACH: u64 = 100;

// How often a thread looks for the other at most.
const LOOKS: u64 = 100_000_000;

// What is seen in the gate.
#[derive(Drop)]
struct Meeting {
    // Whether thread 0 came, and whether thread 1 did.
    came: [AtomicBool; 2],
    // Whether thread 0 found that thread 1 came.
    met: AtomicBool,
    // How many appends of each of the two were Done, and of others.
    appended: [AtomicU64; 3],
}

impl Meeting {
    fn new() -> Meeting {
        Meeting {
            came: [AtomicBool::new(false), AtomicBool::new(false)],
            met: AtomicBool::new(false),
            appended: [AtomicU64::new(0), AtomicU64::new(0), AtomicU64::new(0)],
        }
    }

    // Looks for thread 1 until it came.
    fn sees_the_other(&self) -> bool {
        for _look in 0..LOOKS {
            if self.came[1].load(SeqCst) {
                return true;
            }
        }
        false
    }

    // Looks for thread 1, the first time that thread 0 comes.
    fn meet(&self) {
        if !self.came[0].swap(true, SeqCst) {
            self.met.store(self.sees_the_other(), SeqCst);
        }
    }

    // Whether the two met, and the gate saw just the appends of each.
    fn is_as_wanted(&self) -> bool {
        self.met.load(SeqCst)
            && self.appended[0].load(SeqCst) == EACH
            && self.appended[1].load(SeqCst) == EACH
            && self.appended[2].load(SeqCst) == 0
    }
}

impl Gate for Meeting {
    fn before_claim(&self, t: u32) {
        if t == 0 {
            self.meet();
        } else {
            self.came[1].store(true, SeqCst);
        }
    }

    fn after_append(&self, t: u32, _receipt: &Receipt) {
        let place = t.min(2) as usize;
        self.appended[place].fetch_add(1, SeqCst);
    }
}

fn script(alloc: Global) -> Text {
    let mut script = Text::new(alloc);
    script.put("setup\nopen x /x wc\nopen y /y wc\n");
    put_thread(&mut script, "write x 61\n", EACH);
    put_thread(&mut script, "write y 62\n", EACH);
    script
}

// Whether the two meet, and all their calls return. The set-up's own calls are none of the gate's.
fn do_meet<R: Threads + Wait + Sync>(rt: &R, alloc: Global) -> bool {
    let script = script(alloc);
    let task = Task {
        mode: "strict",
        image: "",
        script: script.as_str(),
    };
    let gate = Meeting::new();
    let output = ran_by(rt, alloc, task, "", &gate);
    is_whole(alloc, task, &output) && gate.is_as_wanted()
}

#[test]
fn two_threads_meet(rt: HostRuntime) {
    assert!(rt; do_meet(&rt, rt.alloc()));
}
