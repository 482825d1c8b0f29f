//! What strict mode permits: each unfinished call acts whole, or not at all.
ghost use Rattle.std.specs.Prelude.{◌↔◌, IfOk, IsTrue};
ghost use Rattle.crash_spec.specs.Strict.{StrictFrom};

use crate::judge_bytes::{after, has_tree};
use posix_spec::State;
use posix_types::{Call, Tree, Who};
use std::alloc::AllocError;

/// Whether some of the unfinished calls, in order, lead from a state to one with this tree.
pub(crate) fn is_strict(
    state: &State,
    unfinished: &[(Who, Call)],
    left: &Tree,
) -> Result<bool, AllocError>
    ensures { IfOk result (λ is. IsTrue is ↔ StrictFrom state.now unfinished.now left.now) }
{
    match unfinished.split_first() {
        None => has_tree(state, left),
        Some((c, rest)) => {
            let acted = after(state, c)?;
            let found = is_strict(&acted, rest, left);
            drop(acted);
            if found? {
                return Ok(true);
            }
            is_strict(state, rest, left)
        }
    }
}
