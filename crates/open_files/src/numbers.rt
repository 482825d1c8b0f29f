//! Open files, once with inodes and once with node numbers.
//!
//! The calls' tables of what is open have the numbers of nodes, which are never used again; a file
//! system keeps inodes. `numbered_as` gives the tables other numbers in the place of their own. The
//! layer above may rely on this: it commutes with each change of the tables (`open`, `dup`, an offset,
//! `close`), handles stand for the same descriptions, the same descriptors are free, and a node is open
//! exactly where its other number is, as long as no two open nodes have one number. So a file system
//! whose tables are those of the state, numbered, answers what the state answers.
//!
//! Facts alone.

ghost use Rattle.open_files.specs.NumbersLaws.{ClosesAlike, DupsAlike, MovesAlike, NothingIsOpen, OpenOnceClosed, OpenOnceDuped, OpenOnceOpened, OpensAlike, SameFull, SameKey, SameOpen, SameOpened, SameWhereOpen};

/// Looking up answers the same whatever the numbers.
pub fn numbered_tables_say_the_same()
    ensures opened { SameOpened }
    ensures key { SameKey }
    ensures full { SameFull }
    ensures is_open { SameOpen }
    ensures agree { SameWhereOpen }
{}

/// Each change of the tables is the same change of the numbered ones.
pub fn numbered_tables_change_alike()
    ensures none { NothingIsOpen }
    ensures opens { OpensAlike }
    ensures dups { DupsAlike }
    ensures moves { MovesAlike }
    ensures closes { ClosesAlike }
{}

/// Which nodes are open after a change.
pub fn a_change_opens_its_own_node_alone()
    ensures opened { OpenOnceOpened }
    ensures duped { OpenOnceDuped }
    ensures closed { OpenOnceClosed }
{}
