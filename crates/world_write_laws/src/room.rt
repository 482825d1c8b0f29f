//! The arithmetic of free blocks: what is staged always finds the blocks to be carried out.
//!
//! Lemmas alone. Free are the data blocks that nothing names. With p entries live or jobs in flight at
//! least `reserve - 3 + p` are free (`HasFreeBlocks` of `world_model`). The layer above may rely on this: each
//! step keeps it (`StaysFree` for changes of names and nodes, which free no block less; a job that begins,
//! finishes or is given up; a run that is carried out, which takes one free block at most); the run that is
//! carried out next finds its `reserve - 2`, and so does each one of a gathering (`FindsEach`); and a
//! preallocation leaves what one run more wants (`LeavesForTheNext`). `Laws` has the facts, each as one
//! statement.

ghost use Rattle.world_write_laws.specs.RoomLaws.{FindsEach, FindsItsBlocks, FreesAsMany, FreesDropped, LeavesForTheNext, LivesNoMore, StaysFree, StaysFreeBegun, StaysFreeFinished, StaysFreeGivenUp, StaysFreeRelinked, TakesOneAtMost};

/// Changes of names and nodes leave as many blocks free, or more.
pub fn changes_leave_free_blocks()
    ensures stays { StaysFree }
    ensures as_many { FreesAsMany }
    ensures lives { LivesNoMore }
    ensures dropped { FreesDropped }
{}

/// Jobs leave the blocks that all those staged want.
pub fn jobs_leave_free_blocks()
    ensures begun { StaysFreeBegun }
    ensures finished { StaysFreeFinished }
    ensures given_up { StaysFreeGivenUp }
    ensures next { LeavesForTheNext }
{}

/// Runs find the blocks that they want.
pub fn runs_find_free_blocks()
    ensures takes { TakesOneAtMost }
    ensures finds { FindsItsBlocks }
    ensures relinked { StaysFreeRelinked }
    ensures each { FindsEach }
{}
