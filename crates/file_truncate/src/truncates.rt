//! `truncate` while writes of other callers are in flight.
//!
//! The layer above may rely on this: where K-Split, the open files and what is kept of files run in
//! a state with writes of others out, and nothing is staged of the file, `truncate_file` is refused
//! by a row, or done where the writes that are out leave what it takes; its outcome is that of the
//! step, and they run in its next state. Or no row refuses it but these writes leave less, and
//! nothing was done; or the power went, and each image, with log lines and blocks of jobs put back,
//! is kept with the calls of the jobs unfinished, and this one; or memory ran out, and they run in the
//! same state (`IsTruncated`). Whether these writes leave less can be asked before, while something is
//! staged of the file (`lacks_room`).
//! A file that grows has its last block cleaned first, so that it shows zeros behind its old end:
//! this asks that nothing lies past the ends of files (`FilesEnd`), and leaves it so.

mod asking;
mod outcomes;
mod sizing;
mod truncating;

pub use outcomes::Truncated;
pub use truncating::{lacks_room, truncate_file};
