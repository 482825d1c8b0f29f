//! The changes of names and nodes keep the rules of a volume.
//!
//! Lemmas and small definitions alone. K-Split changes a volume by a definition that reads as what
//! happened (`made`, `unnamed`, `removed`, `renamed`, `dropped`). The layer above may rely on this:
//! under what its call asks for (`MayMake`, `MayUnname`, `MayRemove`, `MayRename`, `MayDrop`) each
//! change keeps the rules (`made-keeps` and so on), and so does a change of maps and sizes; the rows
//! of the call give what is asked for (`may-make` and so on); and all inodes, rows and maps but those
//! that the change names are as before.
//!
//! `specs/Laws.antt` has the chief laws, each as one statement; the functions here are where they are proved
//! to hold.

ghost use Rattle.volume_change_laws.specs.NameChangesLaws.{KeepsMade, KeepsUnnamed, KeepsRemoved, KeepsRenamed, KeepsWays, KeepsRenamedOverFile, KeepsRenamedOverDirectory, KeepsDropped, KeepsTree, KeepsSwitched, AllowsMade, AllowsRenamed, KeepsMake, KeepsUnlink, KeepsRmdir, KeepsRename, LeavesMade, LeavesRenamedOverDirectory, LeavesDropped, CountsLines, KeepsCount, MovesName};

/// The changes of names keep the rules.
pub fn names_change()
    ensures made { KeepsMade }
    ensures unnamed { KeepsUnnamed }
    ensures removed { KeepsRemoved }
    ensures renamed { KeepsRenamed }
    ensures ways { KeepsWays }
    ensures over_file { KeepsRenamedOverFile }
    ensures over_directory { KeepsRenamedOverDirectory }
{}

/// So do those of nodes and maps.
pub fn maps_change()
    ensures dropped { KeepsDropped }
    ensures tree { KeepsTree }
    ensures switched { KeepsSwitched }
{}

/// A call that no row refuses makes a change that is allowed, and so keeps the rules.
pub fn calls_change()
    ensures made { AllowsMade }
    ensures renamed { AllowsRenamed }
    ensures make { KeepsMake }
    ensures unlink { KeepsUnlink }
    ensures rmdir { KeepsRmdir }
    ensures rename { KeepsRename }
{}

/// All else stays, and what is set is set.
pub fn others_stay()
    ensures made { LeavesMade }
    ensures over_directory { LeavesRenamedOverDirectory }
    ensures dropped { LeavesDropped }
    ensures counts { CountsLines }
    ensures keeps { KeepsCount }
    ensures names { MovesName }
{}
