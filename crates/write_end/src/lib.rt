//! Where a write ends: it finishes, is given up, or its power went; and what a crash leaves of a World.
//!
//! `finish_write` puts the blocks back, lays the run and claims the entry; in sync mode `place_front`
//! then writes what lies before the entry's blocks in place. `give_up_write` undoes the beginning. None
//! takes memory, and `place_front` alone makes steps. `IsLostWith` says what holds once the power went,
//! and a crash puts all back.
//!
//! - `ends`: The end of a logged write, in strict and in sync mode.
//! - `landing`: A write lands, and its front is written.
//! - `losing`: A World whose power went while log lines and blocks of jobs are out.
//! - `crashes`: What a crash leaves of a World.
//!
//! Stands on `layout_model`, `posix_types`, `write_jobs`, `file_overlay`, `write_plan`,
//! `live_model`, `k_split_laws`, `oplog_entry`, `in_place`, `posix_laws`, `k_journal` and `pm_lines`.
#![tactic(auto)]

mod crashes;
mod ends;
mod landing;
mod losing;

pub use crashes::a_crash_keeps_the_promise;
pub use ends::{finish_write, give_up_write, move_by, place_front, settle_blocks};
pub use landing::a_landed_write_has_its_front;
pub use losing::{
    Full, blocks_are_out_or_at_home, jobs_end_after_a_loss, publishing_leaves_what_is_out,
    the_power_goes,
};
