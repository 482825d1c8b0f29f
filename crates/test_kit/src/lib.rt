//! What the crates of tests share: the language of their tables, and numbers that are drawn from a seed.
//!
//! A table has rows with an empty line between two. A line that begins with `#` is a remark on where the answers come
//! from. A row has a line `row NAME`, then its options, `WORD ..`, as its crate reads them, and then what is done,
//! `CALL = REPLY`: a call as scripts spell it, and its reply as histories print it. A caller other than thread 0 stands
//! in front, `s:` for the set-up or `1:` for a thread. `tree = ..` is the tree at that place, with `; ` between two entries.
//! Data may stand in parts with `+` between them. Lines that several rows share stand in the table once, below `lines NAME`
//! and between empty lines: `do NAME` stands for them. `for WORD ..: LINE` stands for that line, or for the lines of `do
//! NAME`, with each of the words in the place of `#`, and `for N to M: ..` likewise with numbers.
//!
//! A `Text` is put together part by part, and says in the end whether it is whole, so that few functions have to answer an error: where
//! memory was wanting or a line is misspelled, no text that is wanted is found in it. `row_told` tells how a row went by the answers to
//! its lines; `table_told` tells how each row of a table went, and `assert_rows` asserts that each went `ok`. Calls are read by
//! `read_script`, and replies and trees are printed by `history_text` and `tree_text`, which are tried so. `read_history` finds
//! the calls of a printed history of several threads, and `next_calls` those that come behind it, one of each caller at most.
//! `Draws` draws numbers from a seed. A row that gives no answer ends with a `RowError`. Nothing here is claimed by a contract,
//! but the bound of a number that is drawn. Stands on `script_text`, `report_text` and `posix_spec`.
#![tactic(auto)]

mod calls;
mod draws;
mod faults;
mod printed;
mod tables;
mod texts;
mod threads;
mod trees;
mod unfolding;

pub use calls::{caller, read_call};
pub use draws::Draws;
pub use faults::RowError;
pub use printed::{put_call, put_items, put_lines, put_tree};
pub use tables::{asked, assert_rows, number, option, small_number, table_told, word};
pub use texts::{Text, row_told};
pub use threads::{count_of, next_calls, read_history, scripts_of};
pub use trees::read_tree;
