//! Open files: descriptions, descriptors and handles.
//!
//! An open description has its inode, its offset and how it was opened. It is kept in a slab, with
//! its number: slab keys are used again, and numbers never are. Each of the 64 descriptors is free
//! or refers to a description, and each handle of a caller is bound to a descriptor. Contracts see
//! the tables that the calls are stated by (`Tables` of `posix_tables`), in which the inode stands in
//! the place of the node number, and whether there is room for one more.
//!
//! The layer above may rely on this: `open`, `dup`, `set_offset` and `close` change the tables as
//! the calls do, and a refusal leaves them; `open` and `dup` take the lowest free descriptor, and
//! lack no memory after `reserve`; the tables are always in order (`AreInOrder`). No look-up is
//! longer for all that was ever opened.

mod faults;
mod files;
mod found;
mod kept;
mod laws;
mod lists;
mod opened;

pub use faults::OpenFault;
pub use files::OpenFiles;
pub use laws::{at_most_64_files_are_open, bindings_are_apart, known_handles_are_open};
pub use opened::Opened;
