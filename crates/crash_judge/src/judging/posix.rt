//! What POSIX mode permits: a front of the history is kept, or all of it and some of the unfinished
//! calls; or the tree is that of the history.
ghost use Rattle.std.specs.Prelude.{◌≡◌, ◌↔◌, [], IfOk, IsTrue, map};
ghost use Rattle.std.specs.List.{list_any};
ghost use Rattle.posix_laws.specs.posix_spec.Run.{begun, run};
ghost use Rattle.crash_spec.specs.Posix.{Posix, syncs};
ghost use Rattle.crash_judge.specs.Effects.{AreEffects};
ghost use Rattle.crash_judge.specs.Fronts.{ActsOrNot, KeptFrom, KeptHere};

use crate::judge_bytes::{
    Effect, after, after_item, calls_of, effects_of, has_tree, is_left, run, with_call,
};
use posix_spec::State;
use posix_types::{Call, Item, Reply, Tree, Who};
use std::alloc::{AllocError, Global};

/// Whether an item is an `fsync` that returned ok.
fn syncs(item: &Item) -> bool
    ensures { result ≡ syncs item.now }
{
    match (&item.call, &item.reply) {
        (Call::Fsync(_), Reply::Ok) => true,
        _ => false,
    }
}

fn any_syncs(items: &[Item]) -> bool
    ensures { result ≡ list_any syncs items.now }
{
    items.iter().any(|item| syncs(item))
}

/// Whether what was done up to a state may be kept alone, with these later items.
fn is_kept_here(
    alloc: Global,
    state: &State,
    later: &[Item],
    effects: &[Effect],
    unfinished: &[(Who, Call)],
    extra: &[Effect],
    left: &Tree,
) -> Result<bool, AllocError>
    requires effects { AreEffects state.now (map begun later.now) effects.now }
    requires extra { AreEffects (run state.now later.now) unfinished.now extra.now }
    ensures { IfOk result (λ is. IsTrue is ↔ KeptHere state.now later.now unfinished.now left.now) }
{
    if any_syncs(later) {
        return Ok(false);
    }
    is_left(alloc, state, effects, extra, left)
}

/// Whether a front may be kept that leads to a state, or further.
fn is_kept_from(
    alloc: Global,
    state: &State,
    later: &[Item],
    effects: &[Effect],
    unfinished: &[(Who, Call)],
    extra: &[Effect],
    left: &Tree,
) -> Result<bool, AllocError>
    requires effects { AreEffects state.now (map begun later.now) effects.now }
    requires extra { AreEffects (run state.now later.now) unfinished.now extra.now }
    ensures { IfOk result (λ is. IsTrue is ↔ KeptFrom state.now later.now unfinished.now left.now) }
{
    if is_kept_here(alloc, state, later, effects, unfinished, extra, left)? {
        return Ok(true);
    }
    match (later.split_first(), effects.split_first()) {
        (Some((item, later)), Some((_, effects))) => {
            let next = after_item(state, item)?;
            is_kept_from(alloc, &next, later, effects, unfinished, extra, left)
        }
        _ => Ok(false),
    }
}

/// Whether all of a history may be kept, which led to a state, and some of the unfinished calls.
fn is_kept_whole(
    alloc: Global,
    history: &State,
    acting: &State,
    idle: &[(Who, Call)],
    unfinished: &[(Who, Call)],
    left: &Tree,
) -> Result<bool, AllocError>
    ensures { IfOk result (λ is.
        IsTrue is ↔ ActsOrNot history.now acting.now idle.now unfinished.now left.now) }
{
    match unfinished.split_first() {
        None => {
            let extra = effects_of(alloc, history, idle)?;
            is_left(alloc, acting, &[], &extra, left)
        }
        Some((c, rest)) => {
            let acted = after(acting, c)?;
            let found = is_kept_whole(alloc, history, &acted, idle, rest, left);
            drop(acted);
            if found? {
                return Ok(true);
            }
            let longer = with_call(alloc, idle, c)?;
            is_kept_whole(alloc, history, acting, &longer, rest, left)
        }
    }
}

/// Whether a front of a history may be kept, which led to a state.
fn is_front_kept(
    alloc: Global,
    start: &State,
    done: &State,
    history: &[Item],
    unfinished: &[(Who, Call)],
    left: &Tree,
) -> Result<bool, AllocError>
    requires { done.now ≡ run start.now history.now }
    ensures { IfOk result (λ is. IsTrue is ↔ KeptFrom start.now history.now unfinished.now left.now) }
{
    let calls = calls_of(alloc, history)?;
    let effects = effects_of(alloc, start, &calls)?;
    let extra = effects_of(alloc, done, unfinished)?;
    is_kept_from(alloc, start, history, &effects, unfinished, &extra, left)
}

/// Whether POSIX mode permits this tree after a history, which led to a state.
fn is_posix_after(
    alloc: Global,
    start: &State,
    done: &State,
    history: &[Item],
    unfinished: &[(Who, Call)],
    left: &Tree,
) -> Result<bool, AllocError>
    requires { done.now ≡ run start.now history.now }
    ensures { IfOk result (λ is. IsTrue is ↔ Posix start.now history.now unfinished.now left.now) }
{
    if has_tree(done, left)? {
        return Ok(true);
    }
    if is_front_kept(alloc, start, done, history, unfinished, left)? {
        return Ok(true);
    }
    is_kept_whole(alloc, done, done, &[], unfinished, left)
}

/// Whether POSIX mode permits this tree.
pub(crate) fn is_posix(
    alloc: Global,
    start: &State,
    history: &[Item],
    unfinished: &[(Who, Call)],
    left: &Tree,
) -> Result<bool, AllocError>
    ensures { IfOk result (λ is. IsTrue is ↔ Posix start.now history.now unfinished.now left.now) }
{
    let done = run(start.clone()?, history)?;
    is_posix_after(alloc, start, &done, history, unfinished, left)
}
