//! The changes on a small volume, and a landing of one run.
ghost use Rattle.k_split_model.specs.MapChangesChanges.{OneRunIsMoved};
ghost use Rattle.k_split_model.specs.MapChangesExample.{AreChangesOfExample};

/// What the changes of maps make of a small volume.
pub fn maps_of_a_small_volume_change()
    ensures { AreChangesOfExample }
{}

/// A landing of one run is the move of its blocks.
pub fn a_landing_of_one_run_is_a_move()
    ensures { OneRunIsMoved }
{}
