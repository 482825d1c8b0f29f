//! The values that cross the file calls of a POSIX file system.
//!
//! Who calls, the sixteen calls with their paths, handles, flags and data, their replies, the shape of
//! a file system, the items of a history, the scripts of a run, and the tree of a file system.
//!
//! `Name`, `Path`, `NameList`, `CallList` and `Tree` are made of a `Vec` and give it back by their
//! public field, without taking memory. `Data` is made of a `Vec` once, and shared from there on: a
//! copy of it, and of a write, copies no byte and takes no memory. Contracts see them as lists: a name
//! as its bytes, a path as its names from the root down, data as its bytes, a tree as its entries.
//!
//! The layer above may rely on this: `clone` gives an equal value or is refused memory, and `==` of
//! names, paths, lists of names, data and trees is true exactly of equal values. What the calls mean
//! is not said here. Stands on std alone.
#![tactic(auto)]

mod call;
mod data;
mod handle;
mod item;
mod name;
mod reply;
mod scripts;
mod tree;

pub use call::{Call, Mode, Who};
pub use data::Data;
pub use handle::{Flags, Handle, Whence};
pub use item::{Item, Outcome};
pub use name::{Name, NameList, Path};
pub use reply::{Errno, Reply, Room, Shape, Stat, What};
pub use scripts::{CallList, Scripts};
pub use tree::{Tree, TreeEntry, TreeNode};
