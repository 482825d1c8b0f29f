//! What a power loss within a change leaves of a device of which lines and blocks are lent.
//!
//! Definitions and lemmas alone. The layers above put lines and blocks back once the power went, and may rely
//! on this (`IsLeftOf`): the device has its size, the same words are lent as before the change, and whatever
//! image it leaves, the journal of it can be recovered. Each change of K-Split that the power cuts off leaves
//! a device so (`left_cut`, `left_map_cut`, `left_overwritten`), and so does one behind changes that were done
//! (`left_through`).

ghost use Rattle.k_split_laws.specs.Left.{LeavesCut, LeavesMapCut, LeavesOverwritten};

/// Changes that the power cuts off leave the device so.
pub fn cuts_leave_devices()
    ensures cut { LeavesCut }
    ensures maps { LeavesMapCut }
    ensures bytes { LeavesOverwritten }
{}
