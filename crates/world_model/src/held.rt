//! What files hold, as a sum over the inodes.
//!
//! One lemma. Room is what the data blocks leave beside the reserve and what all files hold. The layer
//! above keeps the size of each file by its inode line, and the sum of what these sizes hold, and may rely
//! on this: where the sizes are those of the files (`AreSizes`) and the volume stands for a state of the
//! calls, the sum is what the files of the state hold (`HeldIsTheSum`). So one number, changed by the file
//! that changes, serves every call.

ghost use Rattle.world_model.specs.HeldLaws.{HeldIsTheSum};

/// The sum over the inodes is what the files of the state hold.
pub fn what_files_hold_is_the_sum()
    ensures { HeldIsTheSum }
{}
