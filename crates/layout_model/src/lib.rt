//! What the places and the lines of an image are: its regions, its journaled view, and how each line is spelled.
//!
//! Definitions alone, to be read beside docs/FORMAT.md; the codecs above are proved against them,
//! byte by byte.
//!
//! - `places`: Where the parts of an image lie, and what its journal makes of it.
//! - `lines`: What the lines of an image stand for, one by one.
//! - `spelling`: How the names of a path are spelled: the one definition that scripts and K-Split
//!   share.
//!
//! Stands on `block_counts` and `pm_model`.
#![tactic(auto)]

mod lines;
mod places;
mod spelling;

pub use block_counts::reserve_for;
pub use lines::{Draft, Inode, Kind};
pub use spelling::names_are_spelled;
