//! The layout of an image: its geometry, the places of its parts, its superblock, and the fields of its lines.
//!
//! A `Geometry` has its numbers in range, and its places are those of `layout_model`; a field is
//! read and written by the place of its first byte.
//!
//! - `layout`: The layout of an image: the numbers that make it, where each of its parts lies, and
//!   its superblock.
//! - `fields`: Numbers in a line of an image.
//!
//! Stands on `block_counts`, `posix_types` and `layout_model`.
#![tactic(auto)]

mod fields;
mod layout;

pub use fields::{put_u16, put_u32, put_u64, u16_at, u32_at, u64_at};
pub use layout::{
    Geometry, SuperFault, read_superblock, regions_are_apart, superblock_is_read_back,
};
pub use layout_model::{Inode, Kind};
