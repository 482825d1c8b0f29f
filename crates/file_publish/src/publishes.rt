//! What is staged of a file is published, while jobs of others are out.
//!
//! `publish_file` relinks the runs that are staged of a file and takes them out of the file table.
//! The layer above may rely on this: where no job of the file is out, K-Split and the World stand
//! together behind it, in the same state (`PublishesFile`); where the power goes in it, each image
//! is kept, with the calls of the jobs unfinished (`LosesFile`). Where memory runs out, K-Split and
//! the table may disagree: the World is only to be dropped.

ghost use Rattle.std.specs.Prelude.{◌≡◌, ◌<◌, ◌+◌, ◌*◌, ◌^◌, true, length};
ghost use Rattle.live_step_laws.specs.live_model.file_table.Files.{runs_in, size_in};
ghost use Rattle.file_publish.specs.Answers.{IsFilePublished};
ghost use Rattle.log_checkpoint.specs.fsync_relink.Others.{GoesOn};
ghost use Rattle.log_checkpoint.specs.fsync_relink.Publishes.{IsPublishPaid, MayPublish};
ghost use Rattle.live_step_laws.specs.pm_model.Powers.{is_on, Steps};

use crate::laws;
use crate::relinks::{Commit, FileTable, KSplit, publish_runs};
use pm_lines::Power;
use std::alloc::{AllocError, Global};

/// Publishes what is staged of a file, by rising order, and takes it out of the table. The file is
/// one that is there, and its inode number has a line of the table.
///
/// `PowerLost` comes exactly where the power is off at the return.
///
/// # Errors
///
/// Out of memory: some first runs may be relinked, and the table still has them.
///
/// # Steps
///
/// At most 2^15 a run, and 2^15 more.
pub fn publish_file(
    alloc: Global,
    k: &mut KSplit,
    files: &mut FileTable,
    ino: u32,
    power: &mut Power,
) -> Result<Commit, AllocError>
    requires power { is_on power.old ≡ true }
    requires on { GoesOn k.old }
    requires line { ino < length files.old.sizes }
    requires may { MayPublish ino (size_in files.old ino) (runs_in files.old ino) k.old }
    ensures steps { Steps (2 ^ 15 * (length (runs_in files.old ino) + 1)) power.old power.new }
    ensures paid { IsPublishPaid power.new result }
    ensures answer { IsFilePublished ino files.old k.old files.new k.new result }
{
    laws::a_file_is_published();
    let size = files.size(ino);
    let commit = publish_runs(alloc, k, files.overlay(ino).runs(), ino, size, power)?;
    match commit {
        Commit::PowerLost => Ok(Commit::PowerLost),
        Commit::Done => {
            files.clear(ino, size);
            Ok(Commit::Done)
        }
    }
}
