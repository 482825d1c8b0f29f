//! Publishing: the staged runs of a file go over to it.
//!
//! A file's staged runs stand in its overlay until they are published: `publish` relinks them by rising order, each whole,
//! by one change of K-Split each. The file's length goes with the last one; what it has applied rises with each. With no run it
//! gets the length alone, where it has another one.
//!
//! The layer above may rely on this: done, the file has the staged disk blocks and elsewhere what it had, all others are as
//! before, and no run is laid (`ArePublished`); each relink is one of K-Split's own answers (`AreRelinked`), so that the
//! law of one relink holds of each; where the power goes or memory runs out, some first runs are published and the overlay is as
//! it was. Whatever happens, each image has the content of the image before, where the log of that one holds the runs
//! (`HasSameContent`).
//!
//! Stands on `k_split`, `file_overlay` and `relink_laws`.

mod laws;
mod publishing;

pub use laws::{a_publishing_leaves_others, overlays_show_what_the_log_holds};
pub use publishing::{publish, publish_runs};
