//! What a write asks for before it stages: its rows, its target, its entry, and the words of its blocks.
//!
//! Each answer is exact: the row that refuses it, the room it needs, the run and order of its
//! entry, the bytes that its blocks are to hold. Nothing is changed here.
//!
//! - `rows`: The rows of `write`, `pwrite` and `truncate`, from numbers that are kept beside
//!   K-Split.
//! - `asks`: What a write asks for by its mode and numbers, and the offset behind it.
//! - `drafts`: The entry of a logged write, or of the part of it that is staged.
//! - `parts`: The part of a write that is staged.
//! - `words`: What the blocks of a logged write are to hold.
//! - `first_writes`: Room for the first write of a lap, and for the holes of its file.
//! - `shown`: What a write rests on, of any volume by which the calls see the files.
//!
//! Stands on `block_counts`, `posix_types`, `posix_tables`, `open_files`, `file_table`,
//! `layout_model`, `file_overlay`, `live_model`, `fsync_relink` and `eof_laws`.
#![tactic(auto)]

mod asks;
mod drafts;
mod first_writes;
mod laws;
mod parts;
mod rows;
mod shown;
mod words;

pub use asks::{
    Asked, FileTable, OpenFiles, Opened, Target, ask, move_by, numbers_are_those_of_the_state,
};
pub use drafts::{
    Collection, Commit, Job, KSplit, StagedBytes, draft_of, entries_are_the_next_ones,
    kept_numbers_are_those_of_the_state, read_bytes,
};
pub use first_writes::{the_first_holes_find_their_blocks, the_first_write_finds_its_blocks};
pub use parts::staged_blocks_are_those_of_the_part;
pub use rows::{room_by, the_rows_are_those_of_the_calls, truncate_row, write_row};
pub use shown::{
    entries_are_next_of_what_is_shown, first_blocks_of_what_is_shown_are_found,
    own_bytes_are_those_in_place, words_spell_what_is_shown,
};
pub use words::{words_of_write, words_spell_the_file};
