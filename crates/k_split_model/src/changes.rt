//! K-Split in definitions: what its state is, what each change makes of a volume, and what a power loss leaves of one.
//!
//! K-Split keeps the metadata: names, inodes and maps. Its contracts speak of a state (`View`): the
//! volume as the calls see it, the volume that was committed last, the cells of the device, and
//! whether the power went. The device stands at the committed volume (`Stands`): whatever its images
//! are, they read as it. A change takes a volume to another one, given by a definition that reads as
//! what happened (`made`, `removed`, `unnamed`, `renamed`, `dropped`); where the power goes on the way,
//! each image reads as the old volume or as the new one, and else is an image before (`IsOldOrNew`).
//! The rows by which a change is refused are those of the calls, over the space of the volume
//! (`space_of`).
//!
//! Definitions, with a small volume as their example.

mod laws;

pub use laws::a_small_volume_is_changed;
