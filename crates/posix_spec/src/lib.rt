//! The meaning of every file call, as a definition to be read and as a plain program.
//!
//! `specs/Step.antt` is the definition: a state of plain lists, and for each of the sixteen calls its
//! rows in the order in which they are tried (`NameRows` of `posix_tables`, `FileRows`), of which the
//! first that fits answers and changes nothing, and else what the call does. `step_of` is the step of
//! one of several instances, and `step` that of the only one. Runs and legal histories (`Run`), the
//! tree of a state and the state of a tree (`Tree`), what a write puts (`Put`), histories that follow
//! scripts (`Scripted`), unfinished calls (`Unfinished`) and the bounds on steps (`Afforded`) stand on it.
//!
//! The layer above may rely on this: `State::open` is `start`, `State::apply` is `step` or is refused
//! memory and leaves the state as it was, `State::tree` is `tree`, and `State::put_by` is `put_by`. It
//! is slow and plain.
//! Stands on `block_counts`, `posix_tables` and `posix_types`, whose types it hands on.
//!
//! `State::open` asks for nothing; an entry whose directory is missing is put below the root. `Afforded`
//! looks at the next call of every caller.
#![tactic(auto)]

mod apply;
mod file_calls;
mod fresh;
mod name_calls;
mod puts;
mod state;

pub use fresh::{default_shape, root_alone};
pub use posix_types::{
    Call, CallList, Data, Errno, Flags, Handle, Item, Mode, Name, NameList, Outcome, Path, Reply,
    Room, Scripts, Shape, Stat, Tree, TreeEntry, TreeNode, What, Whence, Who,
};
pub use puts::Put;
pub use state::State;
