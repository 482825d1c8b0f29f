//! What is staged of a file is published beside writes in flight, and all of it at a checkpoint.
//!
//! `publish_file` is the code; the laws say that K-Split and the World stand together behind it,
//! behind a gathering, the next lap and the ends of rounds, and that each image is kept where the
//! power goes.
//!
//! - `standing`: What a World with writes in flight gives to the layers that publish.
//! - `laps`: The next lap of the log, as a step of the World.
//! - `relinks`: Relinks in flight: what is staged of a file is published while jobs of others are
//!   out.
//! - `gathers`: A gathering as a step of the World: the checkpoint of the log.
//! - `round_lines`: A round of the World: the log lines go out when it begins, and come home at its
//!   end.
//! - `publishes`: What is staged of a file is published, while jobs of others are out.
//!
//! Stands on `log_checkpoint`, `live_step_laws` and `pm_lines`.
#![tactic(auto)]

mod gathers;
mod laps;
mod laws;
mod publishes;
mod relinks;
mod round_lines;
mod standing;

pub use gathers::all_files_are_gathered;
pub use laps::the_next_lap_begins;
pub use publishes::publish_file;
pub use relinks::{a_file_is_published, the_first_run_is_relinked};
pub use round_lines::{log_lines_come_home, log_lines_go_out};
pub use standing::{
    Commit, FileTable, KSplit, gather, publish_runs, what_stands_may_be_gathered,
    what_stands_may_be_published,
};
