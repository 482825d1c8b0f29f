//! The changes, and the space of a volume, on a small volume.
ghost use Rattle.k_split_model.specs.ChangesExample.{AreChangesOfExample, IsSpaceOfExample};

/// What the changes of names and nodes make of a small volume, and what the rows of the calls see
/// of it.
pub fn a_small_volume_is_changed()
    ensures changes { AreChangesOfExample }
    ensures space { IsSpaceOfExample }
{}
