//! POSIX mode over K-Split: the standing of the device, and what each call makes of it that takes no block.
//!
//! Definitions and laws, no code. A K-Split that gathers stands, after a history, for three states: its committed volume for
//! a front of the history, its batch for all of it, each file cut to its published length, and the batch with the lengths
//! in memory and the staged runs for the state of the calls (`PosixGoing`; `GoesReady`, where it is ready for a commit). The
//! layer above may rely on this: of whatever image, the batch with lengths and runs is a World without a job
//! (`LiveIsWorld`), so is the batch alone (`CutIsWorld`), and what is kept of files is what the staged runs say
//! (`StagedIsOverlay`); two such Worlds make a batch again (`WorldsMakeBatch`, `BlocksStay`), behind which the device goes
//! on (`GoingGoesOn`); and with its log lines at home it keeps the promise (`GoingIsPromised`).
//!
//! It begins so where the World runs with nothing gathered (`Beginnings`); behind a commit between two calls it goes on with
//! all of the history kept, and where the power went in the commit it keeps the promise (`Commits`); behind a change of
//! names that gathered with no commit it goes on with the call more in its history, whether a node is made, a name goes or
//! moves, or a file goes with its staged runs (`Calls`, each by one law over what the change makes of the batch,
//! `ChangeGoesOn`); so it does behind a call that only looks, opens or closes with nothing to publish, or is refused
//! (`Idle`); wherever the power goes in such a call the promise is kept (`Losses`); and look-ups over the batch are those
//! of the state (`Spaces`). Where a call takes two changes, no commit is between them: who calls makes room for both
//! before. What publishes lengths, writes and cuts is not here.
//!
//! Stands on `posix_mode_laws`, `live_model`, `k_split_laws`.
#![tactic(auto)]

ghost use Rattle.batch_laws.specs.Backs.{LossKeepsBack, PosixKeepsBack, ReadyKeepsBack};
ghost use Rattle.batch_laws.specs.Beginnings.{ReadyBegins};
ghost use Rattle.batch_laws.specs.Calls.{CloseDropGoesOn, CreationGoesOn, MkdirGoesOn, RenameDropGoesOn, RenameGoesOn, RmdirGoesOn, UnlinkDropGoesOn, UnlinkGoesOn};
ghost use Rattle.batch_laws.specs.Changes.{ChangeGoesOn};
ghost use Rattle.batch_laws.specs.Commits.{CommitGoesOn, CommitKeepsLog, CommitKeepsPromise};
ghost use Rattle.batch_laws.specs.Goings.{GoingGoesOn};
ghost use Rattle.batch_laws.specs.Idle.{CloseGoesOn, LengthsAreKept, LookGoesOn, OpenGoesOn, RefusalGoesOn, StillGoesOn};
ghost use Rattle.batch_laws.specs.Joins.{CommitIsFound, FoundGoesOn, LossLeaves, MakeJoins, MakeLoses, RmdirJoins, RmdirLoses};
ghost use Rattle.batch_laws.specs.Losses.{BeginGoesOn, BeginKeepsLog, ChangeKeepsLog, LossKeepsPromise};
ghost use Rattle.batch_laws.specs.Promise.{GoingIsPromised, GoingRuns};
ghost use Rattle.batch_laws.specs.Quiet.{QuietPutsNone, RefusedPutsNone};
ghost use Rattle.batch_laws.specs.Spaces.{PathsLeadAlike, RowsAreAlike};
ghost use Rattle.batch_laws.specs.StandsOn.{FilesStandOn};
ghost use Rattle.batch_laws.specs.Steps.{BlocksStay, LinesOfOne, WorldsMakeBatch};
ghost use Rattle.batch_laws.specs.Worlds.{CutIsWorld, LiveIsWorld, StagedIsOverlay};

/// The batch is seen in two Worlds, whose entries are the staged runs.
pub fn the_batch_is_seen()
    ensures live { LiveIsWorld }
    ensures cut { CutIsWorld }
    ensures overlays { StagedIsOverlay }
{}

/// A device that stands so, with its log lines at home, runs in POSIX mode and keeps the promise.
pub fn the_device_keeps_the_promise()
    ensures runs { GoingRuns }
    ensures promised { GoingIsPromised }
{}

/// Two Worlds make a batch; one that takes fresh blocks uses none that it freed; and log lines are those of both volumes.
pub fn steps_of_the_batch()
    ensures worlds { WorldsMakeBatch }
    ensures blocks { BlocksStay }
    ensures lines { LinesOfOne }
{}

/// A device that stands so goes on behind a change or a call that writes nothing that the medium shows.
pub fn the_device_goes_on()
    ensures { GoingGoesOn }
{}

/// A device on which the World runs in POSIX mode, with nothing gathered and nothing open, begins to go on.
pub fn the_device_begins()
    ensures { ReadyBegins }
{}

/// A commit between two calls: the device goes on, and all of the history is kept; its log lines show no entry still.
pub fn a_commit_goes_on()
    ensures goes_on { CommitGoesOn }
    ensures log { CommitKeepsLog }
{}

/// A commit between two calls that the power cut off: the promise is kept.
pub fn a_commit_is_cut_off()
    ensures { CommitKeepsPromise }
{}

/// A change of names that gathers: the device goes on behind it.
pub fn a_change_of_names_goes_on()
    ensures { ChangeGoesOn }
{}

/// A node is made.
pub fn nodes_are_made()
    ensures mkdir { MkdirGoesOn }
    ensures created { CreationGoesOn }
{}

/// A name goes.
pub fn names_go()
    ensures rmdir { RmdirGoesOn }
    ensures unlink { UnlinkGoesOn }
{}

/// A file that nothing names and nobody has open goes, with its staged runs.
pub fn files_go()
    ensures unlink { UnlinkDropGoesOn }
    ensures close { CloseDropGoesOn }
{}

/// A name moves.
pub fn names_move()
    ensures renamed { RenameGoesOn }
    ensures over_file { RenameDropGoesOn }
{}

/// Calls that only look, that open or close and publish nothing, and that a row answers leave all as it is.
pub fn other_calls_leave_all()
    ensures still { StillGoesOn }
    ensures looked { LookGoesOn }
    ensures opened { OpenGoesOn }
    ensures closed { CloseGoesOn }
    ensures refused { RefusalGoesOn }
{}

/// Calls of names, those that only look, and those that are refused put no byte and shorten no file.
pub fn quiet_calls_put_none()
    ensures quiet { QuietPutsNone }
    ensures refused { RefusedPutsNone }
{}

/// A call begins, with a commit or without; log lines that were at home stay so.
pub fn a_call_begins()
    ensures begun { BeginGoesOn }
    ensures log { BeginKeepsLog }
    ensures gathered { ChangeKeepsLog }
{}

/// The power goes in a call that gathers: the promise is kept.
pub fn a_call_loses_its_power()
    ensures { LossKeepsPromise }
{}

/// A change of names joins the batch in two moves: K-Split as it was, or its batch committed, and then the change, which gathers.
pub fn a_change_joins()
    ensures found { FoundGoesOn }
    ensures committed { CommitIsFound }
    ensures made { MakeJoins }
    ensures removed { RmdirJoins }
{}

/// The power goes in a change of names: the loss is one of those in which the promise is kept, and the device is left of the one before.
pub fn a_change_loses_its_power()
    ensures made { MakeLoses }
    ensures removed { RmdirLoses }
    ensures left { LossLeaves }
{}

/// What stands together goes on to, behind a change that leaves files as they were.
pub fn what_stands_goes_on()
    ensures { FilesStandOn }
{}

/// With its log lines out the device keeps the promise once they are put back: between two calls, and where the power
/// goes in a call that gathers.
pub fn the_promise_is_kept_with_the_lines_out()
    ensures between { ReadyKeepsBack }
    ensures together { PosixKeepsBack }
    ensures lost { LossKeepsBack }
{}

/// What the standing says of the lengths of a file.
pub fn lengths_are_kept()
    ensures { LengthsAreKept }
{}

/// Look-ups over the batch are those of the state: rows and paths.
pub fn look_ups_are_those_of_the_state()
    ensures rows { RowsAreAlike }
    ensures paths { PathsLeadAlike }
{}
