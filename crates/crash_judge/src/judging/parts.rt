//! What sync mode permits: some of the unfinished calls act, in order, each whole or in part.
ghost use Rattle.std.specs.Prelude.{◌≡◌, ◌↔◌, [], IfOk, IsTrue, length};
ghost use Rattle.posix_laws.specs.posix_spec.Run.{after_calls};
ghost use Rattle.crash_spec.specs.Sync.{Sync};
ghost use Rattle.crash_judge.specs.Parts.{all_toward, LeadTo, pick, picked, SomeLead, toward};
ghost use Rattle.crash_judge.specs.Wanted.{numbers_of, wanted};

use crate::judge_bytes::{after, after_all, byte_at, has_tree, numbers_of, run, wanted, with_call};
use posix_spec::State;
use posix_tables::nodes::bytes_at;
use posix_types::{Call, Data, Item, Tree, TreeEntry, Who};
use std::alloc::{AllocError, Global};

fn pick(old: &[u8], whole: &[u8], want: &[u8], i: usize) -> u8
    ensures { result ≡ pick old.now whole.now want.now i }
{
    if i < old.len() && byte_at(whole, i) != byte_at(want, i) {
        byte_at(old, i)
    } else {
        byte_at(whole, i)
    }
}

/// The bytes of a file after a write that may have been done in part: the wanted ones, where they may be.
fn picked(alloc: Global, old: &[u8], whole: &[u8], want: &[u8]) -> Result<Vec<u8>, AllocError>
    ensures { IfOk result (λ bytes. bytes.items ≡ picked old.now whole.now want.now) }
{
    (0..whole.len())
        .map(|i| pick(old, whole, want, i))
        .collect(alloc)
}

/// The state after a call that acts towards a tree.
fn toward(
    alloc: Global,
    state: &State,
    c: &(Who, Call),
    numbers: &[usize],
    left: &[TreeEntry],
) -> Result<State, AllocError>
    ensures { IfOk result (λ s. s ≡ toward (wanted numbers.now left.now) state.now c.now) }
{
    let put = state.put_by(c.0, &c.1)?;
    let mut next = after(state, c)?;
    if let Some(put) = put {
        let want = wanted(numbers, left, put.node);
        let bytes = picked(
            alloc,
            bytes_at(state.nodes(), put.node),
            bytes_at(next.nodes(), put.node),
            want,
        )?;
        next.set_bytes(put.node, Data::of(bytes)?);
    }
    Ok(next)
}

fn all_toward(
    alloc: Global,
    state: &State,
    calls: &[(Who, Call)],
    numbers: &[usize],
    left: &[TreeEntry],
) -> Result<State, AllocError>
    ensures { IfOk result (λ s. s ≡ all_toward (wanted numbers.now left.now) state.now calls.now) }
{
    let mut at = state.clone()?;
    for c in calls {
        at = toward(alloc, &at, c, numbers, left)?;
    }
    Ok(at)
}

/// The numbers of the nodes that the places lead to, once calls have acted.
fn numbers_after(
    alloc: Global,
    state: &State,
    calls: &[(Who, Call)],
) -> Result<Vec<usize>, AllocError>
    ensures { IfOk result (λ numbers. let whole = after_calls state.now calls.now in
        numbers.items ≡ numbers_of (length whole.nodes) whole.entries) }
{
    let whole = after_all(state, calls)?;
    numbers_of(alloc, whole.nodes().len(), whole.entries())
}

/// Whether calls lead to a tree, each acting whole or in part.
fn lead_to(
    alloc: Global,
    state: &State,
    calls: &[(Who, Call)],
    left: &Tree,
) -> Result<bool, AllocError>
    ensures { IfOk result (λ is. IsTrue is ↔ LeadTo state.now calls.now left.now) }
{
    let numbers = numbers_after(alloc, state, calls)?;
    let end = all_toward(alloc, state, calls, &numbers, &left.entries)?;
    has_tree(&end, left)
}

/// Whether the chosen calls and some of the others do.
fn some_lead(
    alloc: Global,
    state: &State,
    chosen: &[(Who, Call)],
    unfinished: &[(Who, Call)],
    left: &Tree,
) -> Result<bool, AllocError>
    ensures { IfOk result (λ is.
        IsTrue is ↔ SomeLead state.now chosen.now unfinished.now left.now) }
{
    match unfinished.split_first() {
        None => lead_to(alloc, state, chosen, left),
        Some((c, rest)) => {
            let longer = with_call(alloc, chosen, c)?;
            if some_lead(alloc, state, &longer, rest, left)? {
                return Ok(true);
            }
            some_lead(alloc, state, chosen, rest, left)
        }
    }
}

/// Whether sync mode permits this tree.
pub(crate) fn is_sync(
    alloc: Global,
    start: &State,
    history: &[Item],
    unfinished: &[(Who, Call)],
    left: &Tree,
) -> Result<bool, AllocError>
    ensures { IfOk result (λ is. IsTrue is ↔ Sync start.now history.now unfinished.now left.now) }
{
    let done = run(start.clone()?, history)?;
    some_lead(alloc, &done, &[], unfinished, left)
}
