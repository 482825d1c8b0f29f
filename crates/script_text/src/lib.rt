//! The grammar of scripts: from the bytes of a script to the calls of its set-up and its threads.
//!
//! `read_script` gives the scripts of a text, or the first line that breaks the grammar or a limit,
//! counted from 1, and 0 for a text of too many bytes: exactly as `specs/Scripts.antt` says. A line
//! is words between blanks (`Lines.antt`), its first word names a call (`Calls.antt`), and the others
//! spell its parts (`Words.antt`). `known_words` is the table of the words that the program runs by
//! now; a line with another one is a bad line.
//!
//! The layer above may rely on this: all paths of a script's calls are spelled, there are at most 8
//! threads and 4,096 calls, each call has a known word, and the words of what a call is printed as are
//! read as that call (`laws`).
//!
//! Stands on `posix_types`, on `layout_model` for the bytes of names and equal bytes, and on `report_text` for the texts of flags and calls.
#![tactic(auto)]

mod calls;
mod cuts;
mod data;
mod faults;
mod handles;
mod kinds;
mod laws;
mod lines;
mod numbers;
mod paths;
mod reading;
mod rows;
mod scripts;

pub use faults::ScriptFault;
pub use laws::{
    calls_are_read_back, lines_are_cut, paths_are_spelled, scripts_are_read_back,
    scripts_are_spelled, scripts_are_within_limits, scripts_have_known_words,
};
pub use numbers::{read_number, read_numbers, spells_numbers};
pub use posix_spec::{
    Call, Item, Mode, Name, Path, Shape, State, Tree, TreeEntry, TreeNode, Who, default_shape,
    root_alone,
};
pub use rows::{
    calls_in_rows, data_in_rows, flags_in_rows, handles_in_rows, headings_in_rows, limits_in_rows,
    lines_in_rows, numbers_in_rows, paths_in_rows,
};
pub use scripts::read_script;
