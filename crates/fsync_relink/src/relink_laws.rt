//! Laws of relinks: moves of blocks in the words of the World, and bytes that are written in place.
//!
//! A move that carries out a log entry is a relink of the World and keeps the content in each
//! image; of bytes in place each is the old one or the new one.
//!
//! - `maps`: Changes of K-Split's maps, in the words of the layers above.
//! - `relinks`: K-Split's relinks and staging files in the words of the World, and the content of
//!   their images.
//!
//! Stands on `block_io`, `log_laws` and `k_split`.

mod maps;
mod relinks;

pub use maps::{bytes_in_place_are_old_or_new, moves_are_relinks};
pub use relinks::{
    relinks_are_those_of_the_world, relinks_keep_the_content, staging_files_change_as_in_the_world,
};
