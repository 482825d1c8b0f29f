//! K-Split's relinks and staging files in the words of the World, and the content of their images.
//!
//! Laws alone, no code. The layer above may rely on this: a relink of K-Split, done or cut off, whose
//! move carries out a log entry is a relink of the World (`GivesRelinks`), so that the state of the
//! calls stays and one free block is taken at most; where the entry is the next one of its file, each
//! image has the content of the image before (`KeepsContent`). A staging file that gets blocks, or gives
//! up its own, is a change of a staging file, and where nothing is live in it the content is kept
//! (`KeepsContentFilled`, `KeepsContentGivenUp`).

mod laws;

pub use laws::{
    relinks_are_those_of_the_world, relinks_keep_the_content, staging_files_change_as_in_the_world,
};
