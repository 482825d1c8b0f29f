//! Facts of volumes: when the words of an image read as a volume, and what its content rests on.
//!
//! Lemmas alone, over the definitions of `image_model`. The layer above may rely on this: words that
//! read as a volume have it as theirs, and so have all words that agree with them in the journaled
//! lines and in the blocks of chains; a line that is set changes its own part of the volume alone; a
//! chain that is written into blocks of no chain changes nothing until an inode is switched to it;
//! the content rests on the volume, the log lines and the files' blocks alone; and an image reads as
//! the same volume while blocks of no chain are lent, and once they are back.
//!
//! `specs/Laws.antt` has these laws, each as one statement; the functions here are where they are proved to
//! hold.

ghost use Rattle.volume_laws.specs.VolumesLaws.{HasOneVolume, ReadsAlike, SetsInode, SetsRow, SetsBase, WritesFree, Switches, HasFootprint, HasContentBeside, PutsBackLent, PutsBackSettled, ReadsWhileLent, ReadsOnceBack};

/// Words read as one volume at most, and as the same one where they agree in what its reading looks
/// at.
pub fn words_read_as_one_volume()
    ensures one { HasOneVolume }
    ensures alike { ReadsAlike }
{}

/// A line that is set changes its own part of the volume alone.
pub fn lines_are_set_one_by_one()
    ensures inode { SetsInode }
    ensures row { SetsRow }
    ensures base { SetsBase }
{}

/// A chain that is written into blocks of no chain changes nothing, until an inode is switched to it.
pub fn chains_are_written_beside()
    ensures free { WritesFree }
    ensures switched { Switches }
{}

/// The content rests on the volume, the log lines and the files' blocks alone.
pub fn contents_have_a_footprint()
    ensures footprint { HasFootprint }
    ensures beside { HasContentBeside }
{}

/// A device with a part lent and put back has the cells that it had, and so once the part is back.
pub fn lent_parts_are_put_back()
    ensures lent { PutsBackLent }
    ensures back { PutsBackSettled }
{}

/// An image reads as the same volume while a block of no chain is lent, and once a part is back.
pub fn lent_blocks_are_not_read()
    ensures lent { ReadsWhileLent }
    ensures back { ReadsOnceBack }
{}
