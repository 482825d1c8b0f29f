//! What the World promises of a power loss.
//!
//! Lemmas over the definitions of `rules`. The layer above may rely on this: where a world is valid
//! after a history, the tree of each image that shows it, with any of its jobs landed, is one that strict
//! mode, or sync mode, permits; and there is such a tree. `Latest` has the laws of the entry of greatest
//! order, `TreeRules` and `Contents` that a volume that stands for a state has the content of that state,
//! `Landed` that an entry may land, `Beside` what a write leaves of others, `JobLaws` that a job lands or is
//! dropped, `Lent` that words of lent blocks may change, `Ends` puts them together, and `Laws` has the
//! promises, each as one statement.

ghost use Rattle.world_model.specs.PromiseLaws.{HasTree, KeepsStrictPromise, KeepsSyncPromise, MayBeLost, MayBeLostInSync};

/// In strict mode the tree of each image that shows a valid world is permitted.
pub fn strict_mode_keeps_its_promise()
    ensures { KeepsStrictPromise }
{}

/// In sync mode the tree of each image that shows a valid world is permitted.
pub fn sync_mode_keeps_its_promise()
    ensures { KeepsSyncPromise }
{}

/// The content of an image that shows a valid world has a tree.
pub fn an_image_has_a_tree()
    ensures { HasTree }
{}

/// A call that lost its power before it acted may stand last among the unfinished ones.
pub fn a_lost_call_may_stand_last()
    ensures strict { MayBeLost }
    ensures sync { MayBeLostInSync }
{}
