//! The state after calls, and whether it has a tree.
ghost use Rattle.std.specs.Prelude.{◌≡◌, ◌↔◌, IfOk, IsTrue, OnOk};
ghost use Rattle.crash_spec.specs.posix_spec.Run.{after_call, after_calls, run};
ghost use Rattle.crash_spec.specs.posix_spec.Step.{step};
ghost use Rattle.crash_spec.specs.posix_spec.Tree.{tree};

use crash_spec::{Call, Item, State, Tree, Who};
use std::alloc::AllocError;

/// Makes the calls of a history.
fn run_on(state: &mut State, history: &[Item]) -> Result<(), AllocError>
    ensures { OnOk result (state.new ≡ run state.old history.now) }
{
    for item in history {
        state.apply(item.who, &item.call)?;
    }
    Ok(())
}

/// The state after the calls of a history.
pub fn run(mut state: State, history: &[Item]) -> Result<State, AllocError>
    ensures { IfOk result (λ s. s ≡ run state history.now) }
{
    run_on(&mut state, history)?;
    Ok(state)
}

/// The state after a call; the given one stays.
pub fn after(state: &State, c: &(Who, Call)) -> Result<State, AllocError>
    ensures { IfOk result (λ s. s ≡ after_call state.now c.now) }
{
    let mut next = state.clone()?;
    next.apply(c.0, &c.1)?;
    Ok(next)
}

/// The state after a call of a history; the given one stays.
pub fn after_item(state: &State, item: &Item) -> Result<State, AllocError>
    ensures { IfOk result (λ s. s ≡ (step state.now item.now.who item.now.call).state) }
{
    let mut next = state.clone()?;
    next.apply(item.who, &item.call)?;
    Ok(next)
}

/// Whether a state has this tree.
pub fn has_tree(state: &State, left: &Tree) -> Result<bool, AllocError>
    ensures { IfOk result (λ is. IsTrue is ↔ (left.now ≡ tree state.now)) }
{
    let found = state.tree()?;
    Ok(*left == found)
}

/// Makes calls, one after the other.
fn go_on(at: &mut State, calls: &[(Who, Call)]) -> Result<(), AllocError>
    ensures { OnOk result (at.new ≡ after_calls at.old calls.now) }
{
    for c in calls {
        at.apply(c.0, &c.1)?;
    }
    Ok(())
}

/// The state after calls, one after the other.
pub fn after_all(state: &State, calls: &[(Who, Call)]) -> Result<State, AllocError>
    ensures { IfOk result (λ s. s ≡ after_calls state.now calls.now) }
{
    let mut at = state.clone()?;
    go_on(&mut at, calls)?;
    Ok(at)
}
