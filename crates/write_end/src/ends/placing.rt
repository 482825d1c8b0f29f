//! The front of a landed write is written in place.
ghost use Rattle.std.specs.Prelude.{◌≡◌, ◌≤◌, ◌^◌, true};
ghost use Rattle.posix_types.specs.declared.call.Call.{Call};
ghost use Rattle.in_place.specs.live_model.write_jobs.pm_model.Powers.{is_on, Steps};
ghost use Rattle.in_place.specs.live_model.write_jobs.world_image_laws.world_model.Jobs.{put_bytes_of};
ghost use Rattle.in_place.specs.Placing.{CanPlace};
ghost use Rattle.in_place.specs.Gaps.{IsClearPaid};
ghost use Rattle.write_end.specs.Landing.{front_bytes, front_end, front_start, HasFront, IsFrontAnswer};

use in_place::{FileTable, KSplit, put_in_place};
use k_journal::Commit;
use layout_model::Draft;
use pm_lines::Power;
use posix_types::Call;

// The bytes that a write puts; other calls put none.
fn put_bytes(call: &Call) -> &[u8]
    ensures { result.now ≡ put_bytes_of call.now }
{
    match call {
        Call::Write(_, put) | Call::Pwrite(_, _, put) => put.as_slice(),
        _ => &[],
    }
}

/// Writes the bytes of a landed write that lie before the first block of its entry, in place and durable; none,
/// where it has no such bytes. The power is on. It takes no memory.
///
/// `PowerLost` comes exactly where the power is off at the return.
///
/// # Steps
///
/// At most 2^15; none, where there are no such bytes.
pub fn place_front(
    k: &mut KSplit,
    files: &FileTable,
    draft: &Draft,
    call: &Call,
    power: &mut Power,
) -> Commit
    requires on { is_on power.old ≡ true }
    requires can { HasFront draft.now call.now → CanPlace k.old files.now draft.now.ino
        (front_start draft.now call.now) (front_bytes draft.now call.now) }
    requires ends { front_end draft.now ≤ draft.now.size }
    ensures steps { Steps (2 ^ 15) power.old power.new }
    ensures none { ¬ HasFront draft.now call.now → power.new ≡ power.old }
    ensures paid { IsClearPaid power.new result }
    ensures answer { IsFrontAnswer k.old k.new files.now draft.now call.now result }
{
    let bytes = put_bytes(call);
    let at = draft.size.saturating_sub(bytes.len() as u64);
    let end = 4096 * u64::from(draft.file_block);
    if end <= at {
        return Commit::Done;
    }
    put_in_place(
        k,
        files,
        draft.ino,
        at,
        &bytes[..(end - at) as usize],
        power,
    )
}
