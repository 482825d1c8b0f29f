//! What a power loss may leave, as definitions to be read aloud.
//!
//! Which trees each mode permits for a history and the calls that were unfinished (`Strict`, `Sync`,
//! `Posix`; together `Permitted`), by the values that writes put at each byte (`Values`), and which it
//! permits by the stronger rule for bytes (`StronglyPermitted`). Which calls are logged, and which wait
//! for one that is (`Busy`). The machine over events that knows nothing of the medium (`Machine`), the
//! orders in which threads are picked (`Orders`), and which histories and unfinished calls they lead
//! to (`Schedules`).
//!
//! The laws of these are clauses of the functions here (`Laws`, and for schedules `ScheduleLaws`: they
//! have no choice but where space is wanting), and so are rows worked by hand (`ScheduleRows`,
//! `BusyRows`, `ByteRows`). Stands on the meaning of the calls, `posix_spec`, and its facts.
//!
//! A call whose beginning lost the power is of a caller that has no call in flight.
#![tactic(auto)]

ghost use Rattle.crash_spec.specs.BusyRows.{WhatIsLogged, WhoWaits};
ghost use Rattle.crash_spec.specs.ByteRows.{ByteRows};
ghost use Rattle.crash_spec.specs.Laws.{BusyCallsWait, CheckpointsFindNoJob, ClaimsFit, HistoryIsPermitted, NoneIsPart, OneMoreIsStrict, OneMoreIsSync, OneThreadInOrder, SchedulesFollow, StaysLegal, StrictIsOneTree, StrictIsSync, StrongIsPermitted, SyncedIsOneTree, SyncIsOneTree, WholeIsPart};
ghost use Rattle.crash_spec.specs.ScheduleLaws.{NoChoiceWithoutWrites, OneCourse, OneEventFollows, WantsAreFew};
ghost use Rattle.crash_spec.specs.ScheduleRows.{WorkedSchedules};

/// The tree of the history is permitted in each mode, by the stronger rule for bytes too, and in strict
/// and sync mode the tree after the one unfinished call. A legal history stays legal with one more item that is answered.
pub fn what_returned_is_permitted()
    ensures history { HistoryIsPermitted }
    ensures strict { OneMoreIsStrict }
    ensures sync { OneMoreIsSync }
    ensures legal { StaysLegal }
{}

/// Where no call is unfinished, one tree is left; in POSIX mode where all is published.
pub fn one_tree_is_left()
    ensures strict { StrictIsOneTree }
    ensures sync { SyncIsOneTree }
    ensures posix { SyncedIsOneTree }
{}

/// What one rule permits, a weaker one permits.
pub fn modes_imply_modes()
    ensures sync { StrictIsSync }
    ensures whole { WholeIsPart }
    ensures none { NoneIsPart }
    ensures strongly { StrongIsPermitted }
{}

/// Every schedule follows the scripts, and one of a single thread that runs to its end has the calls
/// of its script in their order. A call that has to wait does not begin, a lap has no more claims than
/// the log has lines, and a Checkpoint finds no call out.
pub fn schedules_follow_the_scripts()
    ensures follows { SchedulesFollow }
    ensures one_thread { OneThreadInOrder }
    ensures claims { ClaimsFit }
    ensures busy { BusyCallsWait }
    ensures checkpoint { CheckpointsFindNoJob }
{}

/// A schedule has no choice but where a Begin finds the round over for want of space: from a course
/// that is reached one event leads on to one course, and without want of space as many events lead to
/// one course. Where no script has a `write`, a `pwrite` or a `truncate` there is no choice. Space is
/// wanting no more often than there are events, so rounds end.
pub fn schedules_have_one_way()
    ensures event { OneEventFollows }
    ensures course { OneCourse }
    ensures quiet { NoChoiceWithoutWrites }
    ensures wants { WantsAreFew }
{}

/// Schedules worked by hand, each with all that it leaves.
pub fn schedules_of_worked_rows()
    ensures { WorkedSchedules }
{}

/// Which calls wait while a write of another caller is out, and which writes are logged.
pub fn calls_wait_for_a_busy_file()
    ensures waits { WhoWaits }
    ensures logged { WhatIsLogged }
{}

/// In POSIX mode a file that is cut and written again may have one new byte beside an old one by the
/// rule for bytes, and not by the stronger one.
pub fn rules_for_bytes_differ()
    ensures { ByteRows }
{}

pub use posix_laws::{Put, State};
pub use posix_types::{Call, Data, Item, Tree, TreeEntry, TreeNode, Who};
