//! Changes of K-Split are steps of what a volume is seen as, whatever the device is at.
//!
//! Definitions and lemmas, no code. `SeenFor` says of a volume that the World is valid with it, for some words of data
//! blocks, and that there is room; it speaks of no device. The layer above may rely on this: the changes of `mkdir`,
//! `rmdir`, `unlink`, `rename`, and of an `open` that makes its file or cuts it, are steps of it, and calls answer by its
//! rows. So the laws of `exits` are had of the batch of a K-Split that gathers, at which no device stands.

ghost use Rattle.k_split_laws.specs.SeenLaws.{DoneByRowSeen, RefusedByRowSeen, RenamesOverFileSeen, StateOfUnlinkSeen, StepsCutSeen, StepsDroppedSeen, StepsMkdirSeen, StepsOpenedSeen, StepsRenameSeen, StepsRmdirSeen, StepsUnlinkedSeen, TreeOfRenameSeen, TreeOfUnlinkSeen, UnlinksFileSeen};

/// The changes of `mkdir`, `rmdir`, `unlink`, `rename`, of an `open` that makes its file or cuts it, and of a file that
/// is dropped are steps of what is seen.
pub fn changes_are_seen_as_steps()
    ensures mkdir { StepsMkdirSeen }
    ensures opened { StepsOpenedSeen }
    ensures cut { StepsCutSeen }
    ensures rmdir { StepsRmdirSeen }
    ensures unlinked { StepsUnlinkedSeen }
    ensures renamed { StepsRenameSeen }
    ensures dropped { StepsDroppedSeen }
{}

/// What a first step leaves for the second one.
pub fn a_second_step_is_seen()
    ensures unlinked { UnlinksFileSeen }
    ensures unlink_state { StateOfUnlinkSeen }
    ensures unlink_tree { TreeOfUnlinkSeen }
    ensures renamed { RenamesOverFileSeen }
    ensures rename_tree { TreeOfRenameSeen }
{}

/// The replies of calls on names.
pub fn replies_are_those_of_what_is_seen()
    ensures refused { RefusedByRowSeen }
    ensures answered { DoneByRowSeen }
{}
