//! The load: scripts of up to 4,000 calls from one number, as a benchmark that anybody can run again.
//!
//! The layer above may rely on this: `load_scripts` are the scripts that `specs/Load.antt` states for a number of calls
//! and of threads, `load_script` is their text, and that text is a script, read as these (`load_is_a_script`); `summary` is what
//! `specs/Summary.antt` says of a history and a tree, five sums, each by one pass.
//!
//! - `load`: The scripts of a load, drawn call by call.
//! - `sums`: The sums of a run.
//! - `worked`: The scripts of the worked runs, which tests run.
//!
//! Stands on `script_text`, for what scripts are printed and read as, and on `crash_spec` and `rand_xoshiro` for the
//! draws.
#![tactic(auto)]

mod calls;
mod laws;
mod load;
mod sums;
mod worked;

pub use laws::load_is_a_script;
pub use load::{load_script, load_scripts};
pub use sums::summary;
pub use worked::rows;
