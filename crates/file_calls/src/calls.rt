//! Each file call that puts no bytes, over K-Split, the open files and what is kept of files.
//!
//! The layer above may rely on this: `run_call` runs any of them beside writes of other callers in
//! flight, as `names` says of those on names and descriptors; a read gives the bytes of the
//! state, by what is staged and by the map. No write is out of the file of the call, and nothing is
//! staged of a file that it cuts. The reads and `seek` end as in `names` where changes gather, too.

mod calls;
mod reads;

pub use crate::names::{NoMemory, Told};
pub use calls::run_call;
pub use reads::{fsync, pread, read, seek};
