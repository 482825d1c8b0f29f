//! What the blocks of a logged write are to hold.
//!
//! `words_of_write` reads what a file has beside the new bytes in the blocks of a write, which is nothing where
//! these are covered whole, and puts the new bytes between. The layer above may rely on this: where a World stands together, each file can be read (`StandsReadable`), and the
//! words spell the file with the write done (`StagesTheFile`), whatever is staged of it. It takes memory, and
//! changes nothing.

ghost use Rattle.write_plan.specs.Words.{StagesTheFile, StandsReadable};

mod words;

pub use words::words_of_write;

/// Where a World stands together, files can be read, and the words of a write spell its file.
pub fn words_spell_the_file()
    ensures readable { StandsReadable }
    ensures staged { StagesTheFile }
{}

pub use crate::drafts::{
    Asked, OpenFiles, Opened, Target, ask, draft_of, entries_are_the_next_ones,
    kept_numbers_are_those_of_the_state, numbers_are_those_of_the_state,
};
