//! The file calls on names and descriptors, over K-Split, the open files and what is kept of files.
//!
//! The layer above may rely on this: where they stand together in a state, with writes of other
//! callers in flight (`RunsAs`), a call of whose file no write is out is done, its outcome is that
//! of the step, and they stand together in its next state, with the same writes in flight; or the
//! power went, and each image, once log lines and blocks of jobs are put back, is kept with the
//! calls of the jobs unfinished, and this one, and the same words are lent; or memory ran out, and
//! all is as before (`IsEnded`). Where the power is on, nothing comes to lie past the end of a file
//! (`KeepsEnds`).
//! An `open` that cuts a file asks that nothing is staged of it: the layer above publishes it
//! first.
//!
//! Where changes gather, in POSIX mode, `mkdir`, `rmdir`, an `open` that cuts nothing, `dup`, `stat`
//! and `list` go on so: what stands together after a history stands together after it and the
//! call, though the batch may have been committed; or the power went, and each image is kept with
//! this call unfinished; or memory ran out (`IsGatheredEnd`).

mod looks;
mod names;
mod opens;
mod outcomes;

pub use eof_laws::FileTable;
pub use live_step_laws::{Collection, KSplit, read_bytes};
pub use looks::{list, stat};
pub use names::{mkdir, rename, rmdir, unlink};
pub use open_files::{OpenFiles, Opened};
pub use opens::{close, dup, open};
pub use outcomes::{NoMemory, Told, after_fault, answered};
