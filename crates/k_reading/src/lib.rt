//! Reading a device into tables, and the bytes of a fresh image.
//!
//! A device whose words are all single is read line by line: `read_inodes` and `read_names` give
//! the inodes and the names of the volume of its words, `read_base` the log base, and `read_maps`
//! each chain that stands there, with its map (`specs/Tables.antt`). `free_blocks` is the pool of
//! the data blocks that no chain and no map names. `fresh_image` gives the bytes of the image in
//! which the root stands alone: one fill with zeros, and seven lines.
//!
//! The layer above may rely on this: where the words read as a volume, the tables are those of that
//! volume. Out of memory is the only error. No call writes to the device, and no later call needs
//! to read it again.
//!
//! Stands on `pm_lines`, `image_layout`, `k_inodes`, `k_names`, `map_chain`, `block_pool`, on the
//! definitions of `image_model` and on `volume_laws`; its tests also on `image_laws`.
#![tactic(auto)]

mod fresh;
mod lines;
mod maps;
mod pools;

pub use block_pool::Pool;
pub use fresh::fresh_image;
pub use k_inodes::{Inode, Kind, decode_inode, encode_inode};
pub use k_names::{Decoded, NameLine, decode_name};
pub use lines::{read_base, read_inodes, read_names};
pub use map_chain::{Chain, read, write};
pub use maps::{Blocks, Maps, read_maps};
pub use pools::free_blocks;
