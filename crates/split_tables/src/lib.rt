//! Scripts that lose their power, through the top call over files in memory, as rows of tables.
//!
//! - `scripts`, `images`, `modes`: what tests put together of the top call.
//! - `rows`, `verdicts`, with `cases`, `losses` and `stops`: the rows, and how they go.
//!
//! A script with losses is run by the plain model of the calls and through the top call. A loss is a number of steps or of events
//! after which the power goes, and a choice of what the medium has then: what is printed must be a front of the history, and a
//! tree that `judge` permits for these calls with the next one of each caller unfinished: in flight at once may be those that are
//! logged, and one of the others. The model does the calls of several threads in the order in which a whole run prints them.
//!
//! `Case::printed` is a script by the output of any one run of it, whose order need not be known before: its own lines say it.
//!
//! Nothing is claimed by a contract: it serves tests. It hands on what crates of tests call of `split_sessions`, so that they name
//! this one alone. Stands on `split_sessions` (the top call over files in memory), on
//! `crash_judge` and on `test_kit`.
#![tactic(auto)]

mod cases;
mod images;
mod losses;
mod modes;
mod rows;
mod scripts;
mod stops;
mod verdicts;

pub use cases::Case;
pub use losses::{
    CHOICES, are_permitted_in_turn, is_output_permitted, is_output_whole, is_permitted, left_by_cut,
};
pub use split_sessions::{
    Gate, OpenGate, Ran, answer, done, put_answer_over, put_entry, put_number, remount_image,
    run_image, session_told, top, words_of,
};
pub use stops::{Stops, Unit};
pub use verdicts::losses_told;
