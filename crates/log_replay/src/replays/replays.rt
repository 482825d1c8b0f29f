//! The live entries are carried out.
ghost use Rattle.std.specs.Prelude.{◌≡◌, ◌*◌, ◌^◌, true, length};
ghost use Rattle.fsync_relink.specs.Moves.{move_for};
ghost use Rattle.fsync_relink.specs.log_laws.pm_model.Images.{Follows};
ghost use Rattle.fsync_relink.specs.log_laws.pm_model.Powers.{is_on, Steps};
ghost use Rattle.log_replay.specs.Sheds.{IsSameDevice};
ghost use Rattle.log_replay.specs.Replays.{IsReplayAnswer, IsReplayPaid, MayReplay, ShowsTheSame, stopped_by};

use crate::settling::{Commit, KFault, KSplit, Move};
use layout_model::Draft;
use pm_lines::Power;
use std::alloc::{AllocError, Global};

// What is answered where K-Split did not make a change.
fn stopped_by(fault: KFault) -> Result<Commit, AllocError>
    ensures { result ≡ stopped_by fault }
{
    match fault {
        KFault::PowerLost => Ok(Commit::PowerLost),
        KFault::Refused(_) | KFault::Room(_) | KFault::NoMemory => Err(AllocError),
    }
}

// The move that carries out an entry; the file has the entry's length then.
fn move_for(entry: &Draft) -> Move
    ensures { result ≡ move_for entry.now entry.now.size }
{
    Move {
        staging: entry.staging,
        staging_block: entry.staging_block,
        ino: entry.ino,
        file_block: entry.file_block,
        count: u32::from(entry.count),
        size: entry.size,
        applied: entry.order,
    }
}

/// Carries out the live entries of the log, which are given by rising order: the blocks of each go from its
/// staging file to its file, by one transaction, with the file's length and the order. Done or not, each
/// image has the content of the image before.
///
/// `PowerLost` comes exactly where the power is off at the return. Then some of the entries are carried out,
/// and the others are live.
///
/// # Errors
///
/// Out of memory alone. Some first entries may be carried out then, and the others are live.
///
/// # Steps
///
/// At most 2^15 for each entry.
pub fn replay(
    alloc: Global,
    k: &mut KSplit,
    entries: &[Draft],
    power: &mut Power,
) -> Result<Commit, AllocError>
    requires { MayReplay k.old entries.now }
    ensures steps { Steps (2 ^ 15 * length entries.now) power.old power.new }
    ensures paid { IsReplayPaid power.new result }
    ensures answer { IsReplayAnswer k.old k.new result }
    ensures images { Follows (ShowsTheSame k.old.volume.geometry) k.old.cells k.new.cells }
    ensures device { IsSameDevice k.old.cells k.new.cells }
{
    if !power.on() {
        return Ok(Commit::PowerLost);
    }
    for entry in entries {
        match k.relink(alloc, &move_for(entry), power) {
            Ok(()) => {}
            Err(fault) => return stopped_by(fault),
        }
    }
    Ok(Commit::Done)
}
