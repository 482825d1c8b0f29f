//! Facts of the uses of blocks: who names a data block, and which blocks are free.
//!
//! Lemmas alone, over the definitions of `image_model`. The layer above may rely on this: where one
//! inode's chain and map change, each block is used as often as before, less what the inode used, and
//! more what it uses now; so it is known which blocks stay named once, which come free and which are
//! taken. A block that is named once is the block of one file block of one inode, and of no chain.
//! Each data block is free or one that an inode has, so that free blocks are counted by what inodes
//! have. The reserve has room for the chain of any inode, and for three blocks more. Blocks of a
//! staging file that no live entry tells of are read by no file.
//!
//! `specs/Laws.antt` has these laws, each as one statement; the functions here are where they are proved to
//! hold.

ghost use Rattle.volume_laws.specs.UsesLaws.{CountsUses, StaysNamedOnce, TellsFreed, HasOneOwner, IsInNoChain, CountsFree, FreeIsUnchained, FitsReserve, HasContentBesideStaged};

/// What a change of one inode's chain and map makes of the uses of a block.
pub fn changes_are_counted()
    ensures uses { CountsUses }
    ensures once { StaysNamedOnce }
    ensures freed { TellsFreed }
{}

/// A block that is named once has one owner.
pub fn blocks_have_one_owner()
    ensures file { HasOneOwner }
    ensures no_chain { IsInNoChain }
{}

/// Free blocks are counted, and in no chain.
pub fn free_blocks_are_counted()
    ensures count { CountsFree }
    ensures unchained { FreeIsUnchained }
{}

/// The reserve has room for the chain of any inode, and for three blocks more.
pub fn chains_fit_the_reserve()
    ensures { FitsReserve }
{}

/// The content is as before, whatever is in blocks of a staging file that no live entry tells of.
pub fn staged_blocks_are_not_read()
    ensures { HasContentBesideStaged }
{}
