//! A log that threads fill at once.
//!
//! The lines of a log stand in the slots of a table that threads share. An append claims the next
//! number by one atomic addition, takes the line of that number out of its slot, writes the entry
//! there, makes it durable, and puts the line back: no lock is held, no memory is taken, and nobody is
//! waited for. While a line is out nobody else can reach it, since each number is claimed once.
//!
//! The layer above may rely on this, for every schedule of the threads and every power. Each number
//! below the tail was claimed by one seat, once. A `Done` is an entry that stands whole and durable in
//! its line. Once the log is closed, the line of a claim that lost its power holds the entry, or has
//! each word as at first, alone or with the entry's word as the newer candidate; and each line that
//! nobody claimed is as at first. Where no append lost its power, the log holds its claims.
//!
//! The lines that it was opened with are kept in proofs alone. A `Done` has power left, so an entry can be
//! whole and its append still answer PowerLost.
//!
//! Stands on `pm_lines`, `oplog_entry`, `image_model` and the kit's `atomic_table`.
#![tactic(auto)]

mod appends;
mod closing;
mod logs;
mod opening;
mod seats;
mod table;
mod views;
mod writing;

pub use appends::{Appended, Receipt};
pub use closing::claims_have_the_first_numbers;
pub use layout_model::Draft;
pub use logs::OpLog;
pub use oplog_entry::{Full, Mark, encode, scan};
pub use seats::LogSeat;
pub use views::Claim;
