//! The space of a volume that stands for a state: calls on names are refused by it as by the state's own.
//!
//! Lemmas, and the small definitions that they speak of. K-Split looks up paths and tries the rows of a call
//! over the space of its volume (`volume_space`), and the meaning of the calls over the space of the state.
//! Where the volume stands for the state, the one mirrors the other by the numbers of the nodes
//! (`Mirrors`). The layer above may rely on this: a path leads to the node of the inode to which it leads;
//! each row of each call is the same; a node is as high, and as full; and as many nodes and name lines are
//! left. `Heights` and `Sums` have what is counted by two lists that match, `Counts` the counts, `Rows` the
//! rows, and `Laws` the laws, each as one statement.

ghost use Rattle.world_step_laws.specs.SpacesLaws.{HasSameReplies, IsAsFull, IsAsHigh, LeadsToSameDirectory, LeadsToSameNode, LeavesAsManyLines, LeavesAsManyNodes};

/// A call on names is refused by the volume as by the state.
pub fn replies_are_the_same()
    ensures { HasSameReplies }
{}

/// A path leads to the same node.
pub fn paths_lead_to_the_same()
    ensures node { LeadsToSameNode }
    ensures directory { LeadsToSameDirectory }
{}

/// As much is left of nodes and names, and below a node there is as much.
pub fn as_much_is_left()
    ensures nodes { LeavesAsManyNodes }
    ensures lines { LeavesAsManyLines }
    ensures high { IsAsHigh }
    ensures full { IsAsFull }
{}
