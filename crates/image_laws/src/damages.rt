//! Damaged images, each with the rule of a checked image that it breaks first, and the place.
//!
//! A fresh image, or a small one with some files and directories, with one thing wrong, and the proof that this rule
//! is the first that fails, at this place; for the rule on shared blocks, a volume. They show that the definitions
//! say what is meant, and the tests of a check may take their expected answers from here. Most hold of every
//! geometry in range.
//!
//! `specs/DamageLaws.antt` has them, each as one statement; the functions here are where they are proved to hold.

ghost use Rattle.image_laws.specs.DamageLaws.{IsOneByteShort, IsEmpty, HasNoMagic, IsOfVersion9, IsOneBlockMore, HasUnnamedWord, HasHiddenWord, HasRecordOfLine5, Has129Records, HasBase0, HasBasePast, HasWrongInode, HasFileAt1, HasStagingAt5, HasKind4, HasNoChild, HasParentPast, HasFreeChild, HasFileAsParent, HasOneNameTwice, HasRing, HasNamelessDirectory, HasTwoNames, HasTwoNamesOfAFile, MayBeSixteenDeep, IsSeventeenDeep, HasNoChain, HasBlockOfTwoFiles, HasChainAmongItsBlocks, HasOneOrderTwice, HasNoStagingBlock, HasLaterLap, HasNumber5};

/// Images of a wrong length.
pub fn wrong_lengths()
    ensures short { IsOneByteShort }
    ensures empty { IsEmpty }
{}

/// Images whose block 0 is wrong.
pub fn wrong_superblocks()
    ensures magic { HasNoMagic }
    ensures version { IsOfVersion9 }
    ensures blocks { IsOneBlockMore }
    ensures unnamed { HasUnnamedWord }
    ensures hidden { HasHiddenWord }
{}

/// Images whose journal or log base is wrong.
pub fn wrong_journals()
    ensures record { HasRecordOfLine5 }
    ensures count { Has129Records }
    ensures none { HasBase0 }
    ensures past { HasBasePast }
{}

/// Images with a wrong inode line, or a root that leads to no chain.
pub fn wrong_inodes()
    ensures each { HasWrongInode }
    ensures file { HasFileAt1 }
    ensures staging { HasStagingAt5 }
    ensures kind { HasKind4 }
    ensures root { HasNoChain }
{}

/// Images with wrong names.
pub fn wrong_names()
    ensures childless { HasNoChild }
    ensures parent_past { HasParentPast }
    ensures free_child { HasFreeChild }
    ensures file_parent { HasFileAsParent }
    ensures twice { HasOneNameTwice }
    ensures ring { HasRing }
    ensures nameless { HasNamelessDirectory }
    ensures two { HasTwoNames }
    ensures two_of_a_file { HasTwoNamesOfAFile }
{}

/// How deep a tree may be.
pub fn deep_trees()
    ensures sixteen { MayBeSixteenDeep }
    ensures seventeen { IsSeventeenDeep }
{}

/// Volumes in which a block is named twice.
pub fn wrong_owners()
    ensures two_files { HasBlockOfTwoFiles }
    ensures chain { HasChainAmongItsBlocks }
{}

/// Images with wrong entries in the log.
pub fn wrong_entries()
    ensures orders { HasOneOrderTwice }
    ensures unstaged { HasNoStagingBlock }
    ensures later { HasLaterLap }
    ensures number { HasNumber5 }
{}
