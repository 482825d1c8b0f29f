//! What is staged is carried out: runs are relinked, and staging files are given up and filled anew.
//!
//! Lemmas, and the small definitions that they speak of. The layer above may rely on this, with any jobs in
//! flight on other files: the first live entry of a file is carried out, and the volume stands for the same
//! state, with one live entry less (`Relinks`, `IsFirst`); and a staging file in which nothing is live, nor
//! any job, is given up or gets new blocks (`Restages`). `Laws` has the laws, each as one statement;
//! `RunSteps` and `StagingSteps` their proofs.

ghost use Rattle.world_write_laws.specs.RunsLaws.{KeepsRelinked, KeepsRestaged};

/// A run is carried out, in the same state.
pub fn runs_are_carried_out()
    ensures { KeepsRelinked }
{}

/// A staging file is given up, or filled anew.
pub fn staging_files_change()
    ensures { KeepsRestaged }
{}
