//! The World's exits: what each answer of K-Split makes of the World.
//!
//! Definitions and lemmas, no code. They hold in strict and in sync mode beside any claims in the log and any writes in
//! flight, whatever is in the log lines. The layer above may rely on this: where the World goes on over
//! K-Split (`IsGoing`), the changes of `mkdir`, `rmdir`, `unlink`, `rename` and of an `open` that makes its
//! file or cuts it are steps of it (`IsStep`); a step that is done leaves a World that goes on (`GoesOn`);
//! one that is cut off leaves a device that keeps the promise with the call unfinished, by all of its
//! images where the log lines are at home (`KeepsPromiseCut`), and else by each image once lines and
//! blocks are put back (`KeepsImageCut`). A call that K-Split refuses by a row is answered as that row
//! says (`RefusedByRow`). `unlink`, and a `rename` over a file, take a second step, which drops the file.
//! `Laws` has each law as one statement.

ghost use Rattle.k_split_laws.specs.Laws.{CutsAsAnswer, DoneByRow, GoesOn, KeepsImageCut, KeepsImageOff, KeepsLog, KeepsPromiseCut, KeepsPromiseOff, LeadsSwept, RefusedByRow, RenamesOverFile, StateOfUnlink, StepsCut, StepsDropped, StepsMkdir, StepsOpened, StepsRename, StepsRmdir, StepsUnlinked, TreeOfRename, TreeOfUnlink, UnlinksFile};

/// A change of K-Split that is done, that is cut off, and a call after the power went.
pub fn a_step_ends()
    ensures done { GoesOn }
    ensures log { KeepsLog }
    ensures cut { KeepsPromiseCut }
    ensures off { KeepsPromiseOff }
{}

/// A change of K-Split that is cut off while writes are in flight, and a call after the power went.
pub fn a_step_ends_in_flight()
    ensures cut { KeepsImageCut }
    ensures off { KeepsImageOff }
{}

/// The changes of `mkdir`, `rmdir`, `unlink`, `rename`, and of an `open` that makes its file or cuts it,
/// are steps of the World.
pub fn changes_are_steps()
    ensures mkdir { StepsMkdir }
    ensures opened { StepsOpened }
    ensures cut { StepsCut }
    ensures as_answer { CutsAsAnswer }
    ensures rmdir { StepsRmdir }
    ensures unlinked { StepsUnlinked }
    ensures renamed { StepsRename }
    ensures dropped { StepsDropped }
{}

/// What a first step leaves for the second one: a file that may be dropped, and the tree of the call's end.
pub fn a_second_step_ends_the_call()
    ensures unlinked { UnlinksFile }
    ensures unlink_state { StateOfUnlink }
    ensures unlink_tree { TreeOfUnlink }
    ensures renamed { RenamesOverFile }
    ensures rename_tree { TreeOfRename }
    ensures leads { LeadsSwept }
{}

/// The replies of calls on names.
pub fn replies_are_those_of_the_rows()
    ensures refused { RefusedByRow }
    ensures answered { DoneByRow }
{}
