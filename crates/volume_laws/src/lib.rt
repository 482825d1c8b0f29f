//! Laws of volumes: when words read as a volume, what its content rests on, and who uses which block.
//!
//! Each law is one statement of specs/, which a function here carries. Words that agree in the
//! journaled lines and in the chains read as one volume; a chain may be written beside it unseen;
//! each data block has one owner or none.
//!
//! - `chains`: Facts of chains, the spelling of a file's map in blocks of the image.
//! - `volumes`: Facts of volumes: when the words of an image read as a volume, and what its content
//!   rests on.
//! - `uses`: Facts of the uses of blocks: who names a data block, and which blocks are free.
//!
//! Each data block is free or named once, so a change of a map changes the number of free blocks by what it
//! takes and gives.
//!
//! Stands on `image_model`.
#![tactic(auto)]

mod chains;
mod uses;
mod volumes;

pub use uses::{
    blocks_have_one_owner, chains_fit_the_reserve, changes_are_counted, free_blocks_are_counted,
    staged_blocks_are_not_read,
};
pub use volumes::{
    chains_are_written_beside, contents_have_a_footprint, lent_blocks_are_not_read,
    lent_parts_are_put_back, lines_are_set_one_by_one, words_read_as_one_volume,
};
