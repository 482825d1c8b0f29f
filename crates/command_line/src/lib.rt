//! The words of the command line as a command, and the statuses with which the program ends.
//!
//! `read_command` answers the command exactly where the words are one; numbers and texts of
//! statuses are those of the documents.
//!
//! - `commands`: The words of the command line, read as a command.
//! - `statuses`: How the program ends: the statuses of its top call, their numbers and their texts
//!   on standard error.
//!
//! Stands on `script_text`, on `schedule` for the order of threads, and on `pm_lines` and `image_layout`.
#![tactic(auto)]

mod commands;
mod statuses;

pub use commands::{
    Call, Command, Geometry, Image, Item, Mode, Name, Options, Order, OrderWords, Path,
    ScriptFault, Shape, State, Tree, TreeEntry, TreeNode, Who, default_shape, plain_options,
    read_again, read_command, read_order, read_script, root_alone, scripts_are_spelled,
    scripts_are_within_limits, scripts_have_known_words,
};
pub use statuses::{FileName, Status, exit_number, status_text};
