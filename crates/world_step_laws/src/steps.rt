//! One step keeps the World valid, whatever writes are in flight.
//!
//! Lemmas, and the small definitions that they speak of. `IsWorld` says what holds between two events: the
//! world is valid, its claims stand, the state has the shape of the volume, and fewer than 2^31 nodes were
//! made since the lap began. The layer above may rely on this: where what a step makes of the volume stands
//! for what it makes of the state (`Steps`), and the jobs go on (`GoOn`), the World stays one; an entry of a
//! dead file never comes to life in a lap; and names agree after each change of a table of names. `Touched`
//! has what a change leaves of files, `Steps` and `Worlds` how one step keeps everything, `NameTables` the
//! names, `Nameless` nodes without one, `Ages` the generations, `Makers` the steps of each kind, `Laws` the
//! laws, each as one statement.

ghost use Rattle.world_step_laws.specs.StepsLaws.{AgreesFreed, AgreesGone, AgreesMade, AgreesMoved, KeepsStep, LeavesLive, LetsJobsGoOn, StaysDead};

/// One step keeps the World, the live claims but those of touched inodes, and the jobs.
pub fn one_step_keeps_the_world()
    ensures step { KeepsStep }
    ensures live { LeavesLive }
    ensures jobs { LetsJobsGoOn }
{}

/// No claim of the lap is of a file that is made.
pub fn dead_files_stay_dead()
    ensures { StaysDead }
{}

/// The names of volume and state agree after a name was freed, moved or taken, and after a node went.
pub fn names_agree_after_a_change()
    ensures freed { AgreesFreed }
    ensures moved { AgreesMoved }
    ensures made { AgreesMade }
    ensures gone { AgreesGone }
{}
