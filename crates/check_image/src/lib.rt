//! The rules of a checked image, as far as they speak of its head, its lines and its volume.
//!
//! `read_volume` tries them in their order (1 2 3 4 11 5 6 7 8 9 10), each at its places from the
//! lowest on, and reads a pending journal through: lines count as its committed records have them.
//! It answers the tables of the image, or the first rule that the image breaks with its lowest
//! place. Nothing is written.
//!
//! The layer above may rely on this: the answer is exact (`AreTables`, `HoldAll`, `BreaksFirst`),
//! and what was read need not be read again. The work goes by the lines and by the blocks that are
//! named: each data block and each inode has one mark, and no block is searched for. Names alone are
//! compared two by two.
//!
//! Uses and names are counted up to two, since the rules ask no more.
//!
//! Stands on `pm_lines` (the device), `image_layout`, `k_inodes`, `k_names`, `map_chain`,
//! `k_reading` and `k_journal`, and on the facts of images (`image_laws`, `volume_laws`).
#![tactic(auto)]

mod blocks;
mod chains;
mod faults;
mod head;
mod lines;
mod names;
mod reading;
mod view;
mod volumes;

pub use blocks::count_unused;
pub use faults::{BadImage, CheckFault};
pub use k_journal::journal::recover;
pub use k_journal::{Batch, BatchFull, Commit, Geometry, Recovered, read_superblock};
pub use k_reading::{
    Inode, Kind, Maps, Pool, decode_inode, encode_inode, free_blocks, fresh_image, read, read_base,
    read_inodes, read_maps, read_names, write,
};
pub use reading::{Tables, read_volume};
pub use view::view_line;
