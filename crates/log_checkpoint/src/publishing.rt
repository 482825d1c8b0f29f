//! All files are published, line by line.
ghost use Rattle.std.specs.Prelude.{◌≡◌, ◌<◌, ◌+◌, ◌*◌, ◌^◌, ◌↔◌, true, length, IsTrue};
ghost use Rattle.file_table.specs.Files.{runs_in, size_in};
ghost use Rattle.fsync_relink.specs.Others.{GoesOn};
ghost use Rattle.fsync_relink.specs.Publishes.{IsPublishPaid, MayPublish};
ghost use Rattle.staging_files.specs.k_map_plans.Plans.{IsLiveFile};
ghost use Rattle.file_table.specs.pm_model.Powers.{is_on, Steps};
ghost use Rattle.log_checkpoint.specs.Gathers.{IsPublishAllAnswer, IsPublishedLine, MayGather, file_at, file_count, total_runs};

use file_table::FileTable;
use fsync_relink::publish_runs;
use layout_model::Kind;
use pm_lines::Power;
use staging_files::{Commit, KSplit};
use std::alloc::{AllocError, Global};

// Whether a file has this line.
fn is_file(k: &KSplit, ino: u32) -> bool
    ensures { IsTrue result ↔ IsLiveFile ino k.now.volume }
{
    match k.node(ino) {
        Some(node) => node.kind == Kind::File,
        None => false,
    }
}

// Publishes the file of a line, where there is one.
fn publish_line(
    alloc: Global,
    k: &mut KSplit,
    files: &mut FileTable,
    ino: u32,
    power: &mut Power,
) -> Result<Commit, AllocError>
    requires power { is_on power.old ≡ true }
    requires on { GoesOn k.old }
    requires line { ino < length files.old.sizes }
    requires may { IsLiveFile ino k.old.volume
        → MayPublish ino (size_in files.old ino) (runs_in files.old ino) k.old }
    ensures steps { Steps (2 ^ 15 * (length (runs_in files.old ino) + file_at k.old.volume ino))
        power.old power.new }
    ensures paid { IsPublishPaid power.new result }
    ensures answer { IsPublishedLine ino files.old k.old files.new k.new result }
{
    if !is_file(k, ino) {
        return Ok(Commit::Done);
    }
    let size = files.size(ino);
    let commit = publish_runs(alloc, k, files.overlay(ino).runs(), ino, size, power)?;
    match commit {
        Commit::PowerLost => Ok(Commit::PowerLost),
        Commit::Done => {
            files.clear(ino, size);
            Ok(Commit::Done)
        }
    }
}

// Publishes each file: its staged runs are relinked by rising order, and it gets the size of the table,
// line after line. Done, the table has no run, and sizes as before. `PowerLost` comes exactly where the
// power is off at the return; the table has then no run of the files that were published.
pub(crate) fn publish_all(
    alloc: Global,
    k: &mut KSplit,
    files: &mut FileTable,
    power: &mut Power,
) -> Result<Commit, AllocError>
    requires power { is_on power.old ≡ true }
    requires on { GoesOn k.old }
    requires may { MayGather files.old k.old }
    ensures steps { Steps (2 ^ 15 * (total_runs files.old + file_count k.old.volume))
        power.old power.new }
    ensures paid { IsPublishPaid power.new result }
    ensures answer { IsPublishAllAnswer files.old k.old files.new k.new result }
{
    let lines = k.geometry().inodes;
    for ino in 0..lines {
        let commit = publish_line(alloc, k, files, ino, power)?;
        match commit {
            Commit::Done => {}
            Commit::PowerLost => return Ok(Commit::PowerLost),
        }
    }
    Ok(Commit::Done)
}
