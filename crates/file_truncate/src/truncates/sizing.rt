//! The changes of K-Split that a `truncate` makes.
ghost use Rattle.std.specs.Prelude.{◌≡◌, ◌≤◌, ◌<◌, ◌+◌, ◌^◌, false, length, true};
ghost use Rattle.posix_tables.specs.block_counts.declared.TheConstants.{LONGEST_FILE};
ghost use Rattle.in_place.specs.layout_model.Places.{reserve};
ghost use Rattle.in_place.specs.write_plan.image_model.Volume.{inode};
ghost use Rattle.in_place.specs.write_plan.file_table.Files.{size_in};
ghost use Rattle.file_calls.specs.live_step_laws.k_map_plans.Plans.{IsLiveFile};
ghost use Rattle.file_calls.specs.eof_laws.image_model.Room.{unused_blocks};
ghost use Rattle.in_place.specs.pm_model.Powers.{is_on, Steps};
ghost use Rattle.file_truncate.specs.Truncates.{IsCleanAnswer, IsCommitPaid, IsGiven, IsSet, IsTruncatePaid};

use crate::sizes::{KFault, KSplit, NoMemory};
use crate::truncates::outcomes::Truncated;
use in_place::{Commit, FileTable};
use pm_lines::Power;
use posix_tables::outcomes::answer;
use posix_types::Reply;
use std::alloc::Global;

// The rest of the last block of a file that grows is set to zero.
fn clean_end(k: &mut KSplit, ino: u32, old: u64, size: u64, power: &mut Power) -> Commit
    requires on { k.old.lost ≡ false }
    requires power { is_on power.old ≡ true }
    requires file { IsLiveFile ino k.old.volume }
    requires behind { (inode k.old.volume ino).size ≤ old }
    requires short { old ≤ 2 ^ 24 }
    ensures steps { Steps 577 power.old power.new }
    ensures paid { IsCommitPaid power.new result }
    ensures answer { IsCleanAnswer ino old size k.old k.new result }
{
    if size <= old {
        return Commit::Done;
    }
    match k.clean_tail(ino, old, power) {
        Ok(()) => Commit::Done,
        Err(_) => Commit::PowerLost,
    }
}

// The file gets the size.
fn set_now(
    alloc: Global,
    k: &mut KSplit,
    files: &mut FileTable,
    ino: u32,
    size: u64,
    power: &mut Power,
) -> Result<Truncated, NoMemory>
    requires on { k.old.lost ≡ false }
    requires unbatched { k.old.batched ≡ false }
    requires file { IsLiveFile ino k.old.volume }
    requires size { size ≤ LONGEST_FILE }
    requires room { reserve k.old.volume.geometry ≤ unused_blocks k.old.volume + 3 }
    requires line { ino < length files.old.sizes }
    ensures steps { Steps (2 ^ 15) power.old power.new }
    ensures paid { IsTruncatePaid power.old power.new result }
    ensures answer { IsSet ino size k.old files.old k.new files.new result }
{
    match k.set_size(alloc, ino, size, power) {
        Ok(()) => {
            files.clear(ino, size);
            Ok(Truncated::Answered(answer(Reply::Ok)))
        }
        Err(KFault::NoMemory) => Err(NoMemory {}),
        Err(_) => Ok(Truncated::PowerLost),
    }
}

// The file gets the size, and where it grows its last block is clean before.
pub(crate) fn give_size(
    alloc: Global,
    k: &mut KSplit,
    files: &mut FileTable,
    ino: u32,
    size: u64,
    power: &mut Power,
) -> Result<Truncated, NoMemory>
    requires on { k.old.lost ≡ false }
    requires unbatched { k.old.batched ≡ false }
    requires power { is_on power.old ≡ true }
    requires file { IsLiveFile ino k.old.volume }
    requires size { size ≤ LONGEST_FILE }
    requires room { reserve k.old.volume.geometry ≤ unused_blocks k.old.volume + 3 }
    requires line { ino < length files.old.sizes }
    requires published { (inode k.old.volume ino).size ≡ size_in files.old ino }
    ensures steps { Steps (2 ^ 16) power.old power.new }
    ensures paid { IsTruncatePaid power.old power.new result }
    ensures answer { IsGiven ino (size_in files.old ino) size k.old files.old k.new files.new result }
{
    let old = files.size(ino);
    match clean_end(k, ino, old, size, power) {
        Commit::PowerLost => Ok(Truncated::PowerLost),
        Commit::Done => set_now(alloc, k, files, ino, size, power),
    }
}
