//! Bytes of a file written where they lie, and its holes filled before, while writes are in flight: what sync mode does
//! below a file's old end.
//!
//! `fill_absent` gives blocks of zeros to the blocks of a range that the file has neither in its map nor staged; no call
//! sees a change. `put_in_place` writes bytes of a call there, each in the staged block that has it, else in the map's, and
//! makes them durable: the state is that after the call but for bytes that are still to come. Where the power goes in
//! either, each image, with log lines and blocks put back, is kept: with each byte of the range old or new, and the call at
//! its place among those of the jobs. It takes memory for the new maps alone.
//!
//! - `holes`: Holes of a file get blocks.
//! - `pieces`: One piece of bytes in place.
//! - `places`: Bytes of a call are written where they lie.
//!
//! Stands on `tails`, `live_step_laws`, `fsync_relink`, `posix_laws`, `k_split`, `k_journal`, `file_overlay`,
//! `extent_map` and `pm_lines`.

mod holes;
mod laws;
mod pieces;
mod places;

pub use holes::{Holes, fill_absent};
pub use pieces::present_blocks_are_found;
pub use places::put_in_place;
