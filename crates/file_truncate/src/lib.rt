//! `truncate` beside writes in flight: a file gets another size.
//!
//! It is refused by a row, done where the jobs out leave what it takes, or nothing was done and the
//! round has to end; a file that grows has its last block cleaned first.
//!
//! - `sizes`: A file gets another size while writes are in flight.
//! - `truncates`: `truncate` while writes of other callers are in flight.
//!
//! Stands on `log_replay`, `file_calls`, `pm_lines`, `posix_types`, `posix_tables` and `in_place`.
#![tactic(auto)]

mod laws;
mod sizes;
mod truncates;

pub use sizes::{KFault, KSplit, NoMemory, OpenFiles, a_file_gets_another_size_in_flight};
pub use truncates::{Truncated, lacks_room, truncate_file};
