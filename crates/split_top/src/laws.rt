//! The laws that the bodies here rest on, so that a call of one is seen to be no deed; and those of what a run is.
ghost use Rattle.split_top.specs.Runs.{RunsAreCut, RunsAreWhole, ThreadRunsAreWhole};

pub(crate) use command_line::{scripts_are_spelled, scripts_are_within_limits};
pub(crate) use split_cases::load_is_a_script;
pub(crate) use split_machine::{a_remount_shows_the_same, a_round_goes_beside};

/// A run without a cut and a stop is whole: all calls returned, none is unfinished, and the tree is that of the history.
pub fn runs_are_whole()
    ensures { RunsAreWhole }
{}

/// A run with a cut and without a stop ran just so many events, and no call more had begun; or it is whole, by no more.
pub fn runs_are_cut()
    ensures { RunsAreCut }
{}

/// A run by threads without a stop is whole.
pub fn thread_runs_are_whole()
    ensures { ThreadRunsAreWhole }
{}
