//! Runs are relinked, and a file gets its length.
ghost use Rattle.std.specs.Prelude.{◌≡◌, ◌≤◌, ◌+◌, ◌*◌, ◌^◌, true, false, length};
ghost use Rattle.log_laws.specs.layout_model.block_counts.declared.TheConstants.{LONGEST_FILE};
ghost use Rattle.log_laws.specs.layout_model.Places.{reserve};
ghost use Rattle.log_laws.specs.image_model.Volume.{inode};
ghost use Rattle.k_split.specs.k_map_plans.Plans.{IsLiveFile};
ghost use Rattle.log_laws.specs.image_model.Room.{unused_blocks};
ghost use Rattle.k_split.specs.Order.{IsInOrder};
ghost use Rattle.log_laws.specs.pm_model.Images.{Follows};
ghost use Rattle.log_laws.specs.pm_model.Powers.{is_on, Steps};
ghost use Rattle.fsync_relink.specs.Logged.{HasSameContent};
ghost use Rattle.fsync_relink.specs.Publishes.{IsCarriedOut, IsPublishAnswer, IsPublishPaid, IsRelinkedEach, IsResizedOnce, MayPublish, move_of, size_before, stopped_by};

use file_overlay::{Overlay, Run};
use k_journal::Commit;
use k_split::{KFault, KSplit};
use k_split_model::Move;
use pm_lines::Power;
use std::alloc::{AllocError, Global};

// What is answered where K-Split did not make a change.
fn stopped_by(fault: KFault) -> Result<Commit, AllocError>
    ensures { result ≡ stopped_by fault }
{
    match fault {
        KFault::PowerLost => Ok(Commit::PowerLost),
        KFault::Refused(_) | KFault::Room(_) | KFault::NoMemory => Err(AllocError),
    }
}

// The relink of a run, after which the file has this length.
fn move_of(ino: u32, size: u64, run: &Run) -> Move
    ensures { result ≡ move_of ino size run.now }
{
    Move {
        staging: run.staging,
        staging_block: run.staging_block,
        ino,
        file_block: run.file_block,
        count: run.count,
        size,
        applied: run.order,
    }
}

// The length of a file.
fn length_of(k: &KSplit, ino: u32) -> u64
    requires { IsLiveFile ino k.now.volume }
    ensures { result ≡ (inode k.now.volume ino).size }
{
    match k.node(ino) {
        Some(node) => node.size,
        None => unreachable!(),
    }
}

// The length of a file once a run is relinked behind which these are left.
fn length_then(k: &KSplit, ino: u32, size: u64, left: &[Run]) -> u64
    requires { IsLiveFile ino k.now.volume }
    ensures { result ≡ size_before left.now size (inode k.now.volume ino).size }
{
    if left.is_empty() {
        size
    } else {
        length_of(k, ino)
    }
}

// The file gets the length, where it has another one.
fn resize(
    alloc: Global,
    k: &mut KSplit,
    ino: u32,
    size: u64,
    power: &mut Power,
) -> Result<Commit, AllocError>
    requires power { is_on power.old ≡ true }
    requires on { k.old.lost ≡ false }
    requires unbatched { k.old.batched ≡ false }
    requires file { IsLiveFile ino k.old.volume }
    requires size { size ≤ LONGEST_FILE }
    requires room { reserve k.old.volume.geometry ≤ unused_blocks k.old.volume + 3 }
    ensures steps { Steps (2 ^ 15) power.old power.new }
    ensures paid { IsPublishPaid power.new result }
    ensures answer { IsResizedOnce ino size k.old k.new result }
{
    if length_of(k, ino) == size {
        return Ok(Commit::Done);
    }
    match k.set_size(alloc, ino, size, power) {
        Ok(()) => Ok(Commit::Done),
        Err(fault) => stopped_by(fault),
    }
}

// The runs are relinked, one after the other.
fn relink_each(
    alloc: Global,
    k: &mut KSplit,
    runs: &[Run],
    ino: u32,
    size: u64,
    power: &mut Power,
) -> Result<Commit, AllocError>
    requires power { is_on power.old ≡ true }
    requires on { k.old.lost ≡ false }
    requires unbatched { k.old.batched ≡ false }
    requires order { IsInOrder k.old }
    requires may { MayPublish ino size runs.now k.old }
    ensures steps { Steps (2 ^ 15 * length runs.now) power.old power.new }
    ensures paid { IsPublishPaid power.new result }
    ensures answer { IsRelinkedEach ino size runs.now k.old k.new result }
{
    for (place, run) in runs.iter().enumerate() {
        let then = length_then(k, ino, size, &runs[place + 1..]);
        match k.relink(alloc, &move_of(ino, then, run), power) {
            Ok(()) => {}
            Err(fault) => return stopped_by(fault),
        }
    }
    Ok(Commit::Done)
}

/// Publishes these runs of a file, as [`publish`] does those of an overlay. The power is on.
///
/// # Errors
///
/// Out of memory. Some first runs may be published then.
///
/// # Steps
///
/// At most 2^15 for each run, and 2^15.
pub fn publish_runs(
    alloc: Global,
    k: &mut KSplit,
    runs: &[Run],
    ino: u32,
    size: u64,
    power: &mut Power,
) -> Result<Commit, AllocError>
    requires power { is_on power.old ≡ true }
    requires on { k.old.lost ≡ false }
    requires unbatched { k.old.batched ≡ false }
    requires order { IsInOrder k.old }
    requires may { MayPublish ino size runs.now k.old }
    ensures steps { Steps (2 ^ 15 * (length runs.now + 1)) power.old power.new }
    ensures paid { IsPublishPaid power.new result }
    ensures answer { IsCarriedOut ino size runs.now k.old k.new result }
    ensures content { Follows (HasSameContent ino size runs.now k.old.volume) k.old.cells k.new.cells }
{
    if runs.is_empty() {
        resize(alloc, k, ino, size, power)
    } else {
        relink_each(alloc, k, runs, ino, size, power)
    }
}

/// Publishes a file: all runs of its overlay are relinked by rising order, each whole, by one
/// transaction each; the length goes with the last one, and what the file has applied rises with each.
/// With no run the file gets the length, where it has another one, and what its map has past the end
/// is dropped. The overlay is empty then. Done or not, each image has the content of the image before,
/// where the log of that one holds the runs.
///
/// The runs are staged and share no block, their orders rise above what the file has applied, and with
/// r of them `reserve - 3 + r` blocks are free. `PowerLost` comes exactly where the power is off at
/// the return.
///
/// # Errors
///
/// Out of memory. Some first runs may be published then; the overlay is as it was.
///
/// # Steps
///
/// At most 2^15 for each run, and 2^15.
pub fn publish(
    alloc: Global,
    k: &mut KSplit,
    overlay: &mut Overlay,
    ino: u32,
    size: u64,
    power: &mut Power,
) -> Result<Commit, AllocError>
    requires awake { k.old.lost ≡ true → is_on power.old ≡ false }
    requires unbatched { k.old.lost ≡ false → k.old.batched ≡ false }
    requires may { k.old.lost ≡ false → MayPublish ino size overlay.old.runs k.old }
    ensures steps { Steps (2 ^ 15 * (length overlay.old.runs + 1)) power.old power.new }
    ensures paid { IsPublishPaid power.new result }
    ensures answer { IsPublishAnswer ino size overlay.old k.old overlay.new k.new result }
    ensures content { Follows (HasSameContent ino size overlay.old.runs k.old.volume)
        k.old.cells k.new.cells }
{
    if k.is_lost() || !power.on() {
        return Ok(Commit::PowerLost);
    }
    let commit = match publish_runs(alloc, k, overlay.runs(), ino, size, power) {
        Ok(commit) => commit,
        Err(error) => return Err(error),
    };
    match commit {
        Commit::PowerLost => Ok(Commit::PowerLost),
        Commit::Done => {
            overlay.clear();
            Ok(Commit::Done)
        }
    }
}
