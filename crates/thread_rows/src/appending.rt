//! Threads that append to a list, one at a time.
ghost use Rattle.std.specs.Prelude.{◌≡◌, ◌+◌, ◌<◌, ◌^◌, ℕ, List, [], ◌∷◌, ◌++◌, if◌then◌else◌};
ghost use Rattle.std.specs.List.{range_with_len};
ghost use Rattle.ruled_turn.specs.Passes.{outside_pass};
ghost use Rattle.thread_rows.specs.Entries.{own};

use crate::entries::{EntryPass, EntryTurn};
use std::sync::Wait;

// Enters, appends the entry and leaves. Says whether there was memory for it.
fn append<R: Wait>(rt: &R, turn: &EntryTurn, pass: &mut EntryPass, entry: u64) -> bool
    requires { (i : ℕ) × (entries : List ℕ) × (pass.old ≡ outside_pass turn.now.id i (own entries)) }
    ensures { (i : ℕ) (entries : List ℕ) → pass.old ≡ outside_pass turn.now.id i (own entries)
        → pass.new ≡ outside_pass turn.now.id i (own (entries ++ (if result then entry ∷ [] else []))) }
{
    let mut list = turn.enter(rt, pass);
    let done = list.push(entry).is_ok();
    turn.leave(pass, list);
    done
}

// Appends so many numbers from `first` on, entering for each. Answers how many: fewer where there was no memory.
pub(crate) fn append_all<R: Wait>(
    rt: &R,
    turn: &EntryTurn,
    pass: &mut EntryPass,
    number: u32,
    first: u64,
    count: u64,
) -> u64
    requires pass { pass.old ≡ outside_pass turn.now.id number (own []) }
    requires small { first + count < 2 ^ 64 }
    ensures { pass.new ≡ outside_pass turn.now.id number (own (range_with_len first result)) }
{
    for k in 0..count {
        if !append(rt, turn, pass, first + k) {
            return k;
        }
    }
    count
}
