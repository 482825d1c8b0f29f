//! What is held of the images of a change.
ghost use Rattle.k_split.specs.Contents.{HasNoBlocks, HaveOldOrNew};

/// Each image of a device after a change, or after a part of it, has the content of an image
/// before, or what the new volume makes of the words of one before; also where the change wrote
/// blocks for new maps, which no inode of the old volume had.
pub fn images_have_the_old_or_the_new_content()
    ensures content { HaveOldOrNew }
    ensures none { HasNoBlocks }
{}
