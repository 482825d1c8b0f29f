//! How the program ends: the statuses of its top call, their numbers and their texts on standard error.
//!
//! A number of 0 says that the job was done; every other one is told in a line of text, exactly as `status_text`
//! spells it. When each of them comes is a clause of the top call.

mod file_names;
mod statuses;

pub use file_names::FileName;
pub use statuses::{Status, exit_number, status_text};
