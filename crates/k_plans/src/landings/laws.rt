//! Laws of plans.
ghost use Rattle.k_plans.specs.LandingsLaws.{TurnsNothing, CanCommit, AreAllUnused, HasOwnBlocks};

/// A plan begins with an empty batch, which turns nothing.
pub fn an_empty_plan_turns_nothing()
    ensures none { TurnsNothing }
{}

/// Where the device stands at the volume that a plan turns, the plan can be landed; and where no
/// inode has a block of one of its new maps, none has one of all.
pub fn plans_can_be_landed()
    ensures ready { CanCommit }
    ensures unused { AreAllUnused }
    ensures blocks { HasOwnBlocks }
{}
