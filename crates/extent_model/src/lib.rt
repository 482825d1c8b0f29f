//! What a map of extents says: runs of file blocks that lie one after the other on the disk.
//!
//! The type `Extent`, the definitions that maps, pools, chains and the rules of an image share, and
//! the lemmas on them.
//!
//! - `extent_words`: Words on extents: runs of file blocks that lie one after the other on the
//!   disk.
//! - `extent_facts`: Facts of extents: lemmas over the words of `extent_words`.
//!
//! Stands on nothing.
#![tactic(auto)]

mod extent_facts;
mod extent_words;

pub use extent_words::{Extent, FILE_BLOCKS};
