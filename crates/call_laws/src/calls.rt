//! How a call of a World begins and ends at once.
//!
//! Lemmas alone, over what `world_view_laws` says that a World keeps. A World at its next call (`AtCall`): the file that an
//! `fsync`, a `truncate` or an `open` waits for may be published first, and then the World is at the call still
//! (`Publishing`); a call that puts no bytes runs over K-Split and the open files, and returned, or lost its power
//! (`Running`); a `truncate` finds too little room beside the jobs that are out, or returns only where these leave what
//! it takes (`Truncating`). `Staying` says what holds where nothing returned.

pub use file_truncate::{Truncated, lacks_room, truncate_file};
pub use world_view_laws::publish_file;
