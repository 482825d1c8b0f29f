//! Facts of the changes of maps: what they keep, which blocks come free, and how many they want.
//!
//! Lemmas alone, over the definitions of `k_split_model`. An inode goes over to a map whose blocks waited
//! or were its own (`MaySwitch`): what waits and what the inode has are together the same blocks before
//! and after. The layer above may rely on this: the volume keeps the rules then, just the blocks are
//! free that were, and what the inode has no longer waits; a change need only count its blocks, disk
//! block by disk block (`in_map`, `in_chain`), for which there are laws of parts of a map, of maps
//! that get blocks, and of blocks in order. The reserve has room for the chain of any map of data
//! blocks, and for three blocks more.
//!
//! `specs/Laws.antt` has these laws, each as one statement; the functions here are where they are proved to
//! hold.

ghost use Rattle.volume_change_laws.specs.MapChangesLaws.{KeepsSwitched, FreesAsBefore, WaitsUnused, WaitsOnce, CountsParts, CountsLinked, CountsInOrder, CountsFilled, FitsReserve, FindsSized, TakesOneMore, TakesNoFewer};

/// An inode that goes over to a map leaves a volume that keeps the rules, and as many blocks free.
pub fn switches_keep_the_rules()
    ensures kept { KeepsSwitched }
    ensures free { FreesAsBefore }
    ensures unused { WaitsUnused }
    ensures once { WaitsOnce }
{}

/// How often a changed map has a disk block.
pub fn blocks_of_maps_are_counted()
    ensures parts { CountsParts }
    ensures linked { CountsLinked }
    ensures in_order { CountsInOrder }
    ensures filled { CountsFilled }
{}

/// How many free blocks a changed map wants.
pub fn changes_find_their_blocks()
    ensures reserve { FitsReserve }
    ensures sized { FindsSized }
    ensures one_more { TakesOneMore }
    ensures no_fewer { TakesNoFewer }
{}
