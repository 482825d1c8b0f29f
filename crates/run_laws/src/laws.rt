//! How many calls of a run changed the tree, and which of the unfinished ones acted.
ghost use Rattle.run_laws.specs.Acted.{PermitsAsMuch};
ghost use Rattle.run_laws.specs.Paid.{KeepsGiven};

/// At most so many calls changed the tree as steps were given.
pub fn the_tree_stays_within_the_steps()
    ensures { KeepsGiven }
{}

/// A tree that is permitted with some of the calls unfinished is permitted with all of them.
pub fn a_larger_list_permits_as_much()
    ensures { PermitsAsMuch }
{}
