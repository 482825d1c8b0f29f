//! How a round of the World ends, and the whole run.
//!
//! A round ends at a checkpoint: its lines come home, all that is staged is gathered, and the next lap begins. The layer
//! above may rely on this: with its lines at home a round may begin (`MayBegin`); those that hold the claims may be put back (`MayEnd`), and then all is there
//! that a gathering asks for (`EndsReady`); done, the World goes on with the next round (`GoesIntoNextRound`), with each
//! claim of the lap applied by its file (`AppliesClaims`), and where
//! the power goes it is lost with the lines at home (`LosesRoundInside`, `LosesRoundBefore`); and what is left of a run
//! that ends so keeps the promise (`EndsRunWhole`, `LosesRun`), with an empty log where all was done (`EndsRunEmpty`).
//!
//! Lemmas alone, over what `world_view_laws` says that a World keeps.

ghost use Rattle.round_laws.specs.EndsLaws.{AppliesClaims, EndsReady, EndsRunEmpty, EndsRunWhole, GoesIntoNextRound, LosesRoundBefore, LosesRoundInside, LosesRun, MayBegin, MayCrashWhole, MayEnd};

use world_view_laws::{
    a_crash_keeps_the_promise, all_files_are_gathered, files_end_after_changes_of_maps,
    log_lines_come_home, publishing_leaves_what_is_out, what_stands_may_be_gathered,
};

/// The log's lines may go out.
pub fn the_lines_of_a_round_may_go_out()
    ensures { MayBegin }
{}

/// The log's lines come home at the end of a round, or of the run, and all that is staged may be gathered.
pub fn the_lines_of_a_round_come_home()
    ensures may { MayEnd }
    ensures ready { EndsReady }
{
    a_crash_keeps_the_promise();
    log_lines_come_home();
    what_stands_may_be_gathered();
}

/// A checkpoint: the World goes on, with each claim applied, or is lost.
pub fn a_checkpoint_ends_a_round()
    ensures done { GoesIntoNextRound }
    ensures applied { AppliesClaims }
    ensures inside { LosesRoundInside }
    ensures before { LosesRoundBefore }
{
    a_crash_keeps_the_promise();
    log_lines_come_home();
    all_files_are_gathered();
    publishing_leaves_what_is_out();
    files_end_after_changes_of_maps();
}

/// An unmount: what is left keeps the promise, and where it was done the log is empty.
pub fn an_unmount_ends_a_run()
    ensures whole { EndsRunWhole }
    ensures empty { EndsRunEmpty }
    ensures lost { LosesRun }
    ensures crash { MayCrashWhole }
{
    a_crash_keeps_the_promise();
    log_lines_come_home();
    all_files_are_gathered();
    publishing_leaves_what_is_out();
}

pub use world_view_laws::log_lines_go_out;
