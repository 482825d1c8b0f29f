//! The space of a volume: what the rows of the calls on names say of its tables.
//!
//! Lemmas and small definitions alone. The calls on names are refused by rows over a `Space`; that of
//! a volume (`space_of`) has a directory for each directory inode and an entry for each name line in
//! use. The layer above may rely on this: a look-up, a walk and the height of a node in the entries
//! are those in the rows of the table; a call is refused by the row whose condition holds where none
//! before it does; and where no row fits, the paths lead where the call needs them, and there are an
//! inode line and a name line for it.
//!
//! `specs/Laws.antt` has the chief laws, each as one statement; the functions here are where they are proved
//! to hold. `specs/Paths.antt` has the words: where the paths of a call lead.

ghost use Rattle.name_laws.specs.SpacesLaws.{HasChildren, HasEntries, LeadsInRows, HasNodeAt, BoundsPaths, HasOnePath, BeginsWithPath, TellsMkdir, TellsUnlink, TellsRmdir, TellsRename, AllowsMkdir, AllowsRename, RefusesNodes, RefusesLines, RefusesBelow, RefusesDeep, LeavesSame};

/// The entries of a space are the rows of the table.
pub fn entries_are_rows()
    ensures children { HasChildren }
    ensures entries { HasEntries }
    ensures walks { LeadsInRows }
    ensures nodes { HasNodeAt }
    ensures heights { BoundsPaths }
{}

/// Each directory of a tree has one path, and so has each other inode of one name.
pub fn trees_have_one_path()
    ensures one { HasOnePath }
    ensures begins { BeginsWithPath }
{}

/// What it says of the paths of a call that none of its rows fits.
pub fn calls_are_allowed()
    ensures mkdir { TellsMkdir }
    ensures unlink { TellsUnlink }
    ensures rmdir { TellsRmdir }
    ensures rename { TellsRename }
    ensures mkdir_back { AllowsMkdir }
    ensures rename_back { AllowsRename }
{}

/// Which row refuses a call.
pub fn calls_are_refused()
    ensures nodes { RefusesNodes }
    ensures lines { RefusesLines }
    ensures below { RefusesBelow }
    ensures deep { RefusesDeep }
    ensures same { LeavesSame }
{}
