//! POSIX mode in three standings: the medium, the batch as it would be committed, and what the calls see.
//!
//! Definitions (`Sides`, `Device`, `Batch`, `Claims`, `Changes`), worked worlds in which they stand, and laws of their steps.
//! Between two calls the committed volume stands for a front of the history, each file cut to its published
//! length, with bytes of later writes in place; the volume of the batch for the whole history, cut likewise; and
//! the batch with the lengths in memory and the staged runs for the state of the calls. The layer above may rely
//! on this: each honest image of a device that runs in POSIX mode has a tree that the POSIX relation permits, also
//! where the power goes within a call; a commit, a change that writes nothing that the medium shows, and a write
//! that returned leave a world of this kind; and other claims of the same entries leave the World. Standings and
//! promises are for two rules for bytes, that of the relation and a stronger one; steps for the stronger one.
//! What the calls of POSIX mode do to the batch is not here.
//!
//! Stands on `world_image_laws`, `world_model` and the POSIX relation of `crash_spec`.
#![tactic(auto)]

ghost use Rattle.posix_mode_laws.specs.BatchLaws.{CommitsBatch, CutIsLeft, CutIsOne, FitsLeft, PathsLead, PermitsActed, PermitsLost, PermitsShown, PermitsUnmounted, StepsBatch, StepsWritten};
ghost use Rattle.posix_mode_laws.specs.Changes.{SizedDropped, SizedMade, SizedRemoved, SizedRenamed, SizedRenamedOverDirectory, SizedRenamedOverFile, SizedSwitched, SizedUnnamed};
ghost use Rattle.posix_mode_laws.specs.Claims.{KeepsClaims, SizedAgain, SizedKinds, SpaceSized};
ghost use Rattle.posix_mode_laws.specs.Laws.{BeginsInPosixMode, HasLostWrite, HasWaitingBlock, HasWorldAfterCheckpoint, HasWorldCut, HasWorldCutInCheckpoint, HasWorldInCheckpoint, HasWorldUsedAgain, HasWorldWithRun, KeepsCommitted, KeepsSane, KeepsStrongCommitted, PermitsTreeOfMedium, PermitsTreeStrongly, PosixRunsPromised, StagesNoFreed};

/// Sizes are no part of what makes a volume sane.
pub fn sizes_are_no_rule()
    ensures { KeepsSane }
{}

/// Sizes leave the names, and of two lists of sizes the second stays.
pub fn sizes_leave_names()
    ensures again { SizedAgain }
    ensures kinds { SizedKinds }
    ensures space { SpaceSized }
{}

/// A change of names or of a map, of a volume with other sizes, is that of the volume, with the sizes behind it.
pub fn sizes_leave_changes()
    ensures made { SizedMade }
    ensures removed { SizedRemoved }
    ensures unnamed { SizedUnnamed }
    ensures renamed { SizedRenamed }
    ensures over_file { SizedRenamedOverFile }
    ensures over_directory { SizedRenamedOverDirectory }
    ensures dropped { SizedDropped }
    ensures switched { SizedSwitched }
{}

/// Other claims of the same entries, and other lengths, leave the World.
pub fn claims_are_told_otherwise()
    ensures { KeepsClaims }
{}

/// What is staged is in no file of the medium, but where the file has it already, and in no chain.
pub fn staged_blocks_are_not_freed_ones()
    ensures { StagesNoFreed }
{}

/// The tree of the medium is permitted, by each of the two rules for bytes.
pub fn the_tree_of_the_medium_is_permitted()
    ensures permitted { PermitsTreeOfMedium }
    ensures strongly { PermitsTreeStrongly }
{}

/// A device that runs in POSIX mode, by the stronger rule for bytes, keeps the promise.
pub fn posix_mode_keeps_its_promise()
    ensures { PosixRunsPromised }
{}

/// A device on which the World runs, with no claim and all lengths published, runs in POSIX mode.
pub fn posix_mode_begins()
    ensures { BeginsInPosixMode }
{}

/// A commit leaves such a world, of which all is kept, by each of the two rules.
pub fn a_commit_keeps_all()
    ensures commits { KeepsCommitted }
    ensures strongly { KeepsStrongCommitted }
{}

/// The state with each file cut to its published length is left, it is the one for which the batch stands, and
/// what is left of a state that leaves the reserve leaves it.
pub fn the_cut_state_is_left()
    ensures left { CutIsLeft }
    ensures one { CutIsOne }
    ensures fits { FitsLeft }
{}

/// Where a volume stands for a state, its paths lead to nodes that are there.
pub fn paths_lead_to_nodes()
    ensures { PathsLead }
{}

/// A commit that ends with a call keeps all of the history.
pub fn the_batch_becomes_the_medium()
    ensures { CommitsBatch }
{}

/// A change or a call that writes nothing that the medium shows leaves such a world.
pub fn changes_of_the_batch_keep_the_medium()
    ensures { StepsBatch }
{}

/// A write that returned leaves such a world, whose medium shows the bytes below the published length.
pub fn writes_are_seen_in_the_medium()
    ensures { StepsWritten }
{}

/// Where the power goes: nothing that the medium shows differs, a write in place was cut off, the call acted, or
/// all lengths were published.
pub fn a_power_loss_is_permitted()
    ensures shown { PermitsShown }
    ensures lost { PermitsLost }
    ensures acted { PermitsActed }
    ensures unmounted { PermitsUnmounted }
{}

/// A world with a byte that was written in place, and two that are staged, stands.
pub fn a_world_with_a_staged_run_stands()
    ensures { HasWorldWithRun }
{}

/// A world in a Checkpoint stands, before its commit and after it, with a file past its published length.
pub fn a_world_stands_after_a_checkpoint()
    ensures relinked { HasWorldInCheckpoint }
    ensures committed { HasWorldAfterCheckpoint }
{}

/// A world in which an inode is used again stands. A chain block that the batch freed is not fresh.
pub fn a_world_with_an_inode_used_again_stands()
    ensures stands { HasWorldUsedAgain }
    ensures waits { HasWaitingBlock }
{}

/// A world in which a file was cut behind a front that is kept stands, by the stronger rule; in a Checkpoint too.
pub fn a_world_with_a_cut_stands()
    ensures between { HasWorldCut }
    ensures relinked { HasWorldCutInCheckpoint }
{}

/// A write in place that lost its power half-way.
pub fn a_write_is_lost_in_place()
    ensures { HasLostWrite }
{}
