//! Commands through the top call, over files in memory, and sessions of them as rows of tables.
//!
//! - `commands`: the top call over files and a sink in memory, and what it puts with the text of its status.
//! - `sessions`, with `edits`, `entries` and `forging`: commands over the same files, and edits of these between them.
//!
//! The layer above may rely on the clauses of `command`, which are those of `split_top::top_alone` for such files; else nothing is
//! claimed by a contract: it serves tests. It hands on what tests call of `split_top`. Stands on `split_top`, on the worked runs of `split_cases`, on the files of `outside` and on `test_kit`.
#![tactic(auto)]

mod commands;
mod edits;
mod entries;
mod forging;
mod sessions;

pub use commands::{answer, command, done, put_answer_over, words_of};
pub use entries::{put_entry, put_number};
pub use sessions::session_told;
pub use split_top::{Gate, OpenGate, Ran, remount_image, run_image, top};
