//! Calls on names keep the World valid, whatever writes are in flight.
//!
//! Lemmas alone. The layer above may rely on this: where K-Split makes of the volume what a call asks for,
//! the new volume stands for the state after the call's step, and the World stays one (`KeepsMkdir` and so
//! on, one law a call); and where a call takes two changes of the volume, the World is one between them
//! too, for the state without the name. `MadeCalls` has the calls that make a node, `GoneCalls` what goes
//! with a name, `RemoveCalls` the calls that remove, `RenameCalls` the renames, `OtherCalls` those that
//! leave the volume, and the last `close`; `Laws` has the laws, each as one statement.

ghost use Rattle.world_step_laws.specs.NamesLaws.{KeepsClosed, KeepsCloseGone, KeepsCreated, KeepsIdle, KeepsMkdir, KeepsOpened, KeepsRenameClosed, KeepsRenameDirectory, KeepsRenamed, KeepsRenameMidway, KeepsRenameOpen, KeepsRmdir, KeepsUnlinkClosed, KeepsUnlinkMidway, KeepsUnlinkOpen};

/// A node is made.
pub fn nodes_are_made()
    ensures mkdir { KeepsMkdir }
    ensures created { KeepsCreated }
{}

/// A name goes, and a node without a name that nobody has open.
pub fn names_go()
    ensures unlink_open { KeepsUnlinkOpen }
    ensures unlink_midway { KeepsUnlinkMidway }
    ensures unlink_closed { KeepsUnlinkClosed }
    ensures rmdir { KeepsRmdir }
{}

/// A name moves.
pub fn names_move()
    ensures renamed { KeepsRenamed }
    ensures rename_open { KeepsRenameOpen }
    ensures rename_midway { KeepsRenameMidway }
    ensures rename_closed { KeepsRenameClosed }
    ensures rename_directory { KeepsRenameDirectory }
{}

/// The other calls that change no file.
pub fn other_calls_stay()
    ensures idle { KeepsIdle }
    ensures opened { KeepsOpened }
    ensures closed { KeepsClosed }
    ensures close_gone { KeepsCloseGone }
{}
