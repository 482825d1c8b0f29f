//! Checking an image: all rules of a checked image, in their printed order.
//!
//! `check` answers the geometry exactly where the image of a device keeps all thirteen rules, and
//! else the first rule that it breaks, in the order 1 2 3 4 11 5 6 7 8 9 10 12 13, with the lowest
//! place. A pending journal is read through; nothing is written. Out of memory is the only other
//! answer.
//!
//! `live_log` gives the entries of the log of a checked image that recovery has to carry out.
//!
//! `crash_image` gives the image that a power loss leaves of a device, by a choice, in which no
//! torn line of the log passes its check by chance.
//!
//! The layer above may rely on this: an image that was checked may be recovered and mounted
//! (`IsChecked`), of one that was refused the answer names what it breaks first (`Breaks`), and a
//! crash image is an image of its device, and honest (`IsHonest`).
//!
//! `check` asks that nothing is lent and that the device has whole blocks; of a word with two candidates
//! the newer counts.
//!
//! Stands on `check_image` (the rules of the head, the lines and the volume), `oplog_entry` (the
//! entries of the log) and the facts of images (`image_laws`).
#![tactic(auto)]

mod checking;
mod crashes;
mod entries;
mod recovery;
mod room;
mod rules;

pub use check_image::{
    BadImage, Batch, BatchFull, CheckFault, Commit, Geometry, Inode, Kind, Maps, Pool, Recovered,
    Tables, decode_inode, encode_inode, free_blocks, fresh_image, read, read_base, read_inodes,
    read_maps, read_names, read_superblock, read_volume, recover, write,
};
pub use checking::check;
pub use crashes::crash_image;
pub use oplog_entry::{Draft, decode, encode, scan};
pub use recovery::live_log;
