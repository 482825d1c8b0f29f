//! Bytes of a call are written where they lie.
ghost use Rattle.std.specs.Prelude.{◌≡◌, ◌+◌, ◌*◌, ◌%◌, ◌<◌, ◌≤◌, ℕ, true, false, length};
ghost use Rattle.live_step_laws.specs.k_split_laws.pm_model.Powers.{is_on, Steps};
ghost use Rattle.live_step_laws.specs.block_counts.declared.TheConstants.{LONGEST_FILE};
ghost use Rattle.in_place.specs.Gaps.{IsClearPaid};
ghost use Rattle.live_step_laws.specs.k_split_laws.k_journal.Commits.{TakesAStep};
ghost use Rattle.live_step_laws.specs.k_split_laws.block_io.Overwrites.{blocks_reached};
ghost use Rattle.live_step_laws.specs.k_split_laws.k_split.Bytes.{MayWriteBytes};
ghost use Rattle.live_step_laws.specs.k_split_laws.k_split.Loans.{MayLend};
ghost use Rattle.in_place.specs.Zeros.{staged_place};
ghost use Rattle.in_place.specs.Placing.{CanPlace, IsOnePiece, IsPieceAnswer, IsPlaceAnswer};

use crate::placing::holes::unstaged_from;
use crate::tails::FileTable;
use k_journal::Commit;
use live_step_laws::KSplit;
use pm_lines::Power;

// How many of `count` bytes from byte `at` of a file on can be written at once: those of one staged block, or those up to
// the next one. Fewer than all end with a block.
fn piece_length(files: &FileTable, ino: u32, at: u64, count: usize) -> usize
    requires known { ino < length files.now.sizes }
    requires some { 1 ≤ count }
    requires short { at + count ≤ LONGEST_FILE }
    ensures least { 1 ≤ result }
    ensures most { result ≤ count }
    ensures ends { result < count → (at + result) % 4096 ≡ 0 }
    ensures one { IsOnePiece files.now ino at result }
{
    let block = (at / 4096) as u32;
    let end = ((at + count as u64 + 4095) / 4096) as u32;
    let bare = unstaged_from(files.overlay(ino), block, end);
    let next = block + bare.max(1);
    count.min((4096 * u64::from(next) - at) as usize)
}

// Writes bytes into a block of a staging file, from the place of byte `at` of its file on.
fn put_staged(
    k: &mut KSplit,
    staging: u32,
    block: u32,
    at: u64,
    bytes: &[u8],
    power: &mut Power,
) -> Commit
    requires on { k.old.lost ≡ false }
    requires short { at % 4096 + length bytes.now ≤ 4096 }
    requires may { (b : ℕ) × MayLend k.old.volume k.old.cells staging block b }
    ensures steps { Steps 577 power.old power.new }
    ensures took { is_on power.new ≡ true → 0 < length bytes.now
        → TakesAStep power.old power.new }
    ensures paid { IsClearPaid power.new result }
    ensures answer { IsPieceAnswer staging (staged_place block at) bytes.now k.old k.new result }
{
    match k.write_staged(staging, block, (at % 4096) as u32, bytes, power) {
        Ok(()) => Commit::Done,
        // Only the power stops it.
        Err(_) => Commit::PowerLost,
    }
}

// Writes bytes of a file from byte `at` on into the blocks of its map.
fn put_mapped(k: &mut KSplit, ino: u32, at: u64, bytes: &[u8], power: &mut Power) -> Commit
    requires on { k.old.lost ≡ false }
    requires may { MayWriteBytes k.old.volume ino at (length bytes.now) }
    ensures steps { Steps (576 * blocks_reached at (length bytes.now) + 1) power.old power.new }
    ensures took { is_on power.new ≡ true → 0 < length bytes.now
        → TakesAStep power.old power.new }
    ensures paid { IsClearPaid power.new result }
    ensures answer { IsPieceAnswer ino at bytes.now k.old k.new result }
{
    match k.write_in_place(ino, at, bytes, power) {
        Ok(()) => Commit::Done,
        // Only the power stops it.
        Err(_) => Commit::PowerLost,
    }
}

// Writes bytes of a file from byte `at` on: all in one staged block, or none in a staged one.
fn put_piece(
    k: &mut KSplit,
    files: &FileTable,
    ino: u32,
    at: u64,
    bytes: &[u8],
    power: &mut Power,
) -> Commit
    requires on { is_on power.old ≡ true }
    requires can { CanPlace k.old files.now ino at bytes.now }
    requires some { 1 ≤ length bytes.now }
    requires one { IsOnePiece files.now ino at (length bytes.now) }
    ensures steps { Steps (577 * blocks_reached at (length bytes.now)) power.old power.new }
    ensures took { is_on power.new ≡ true → TakesAStep power.old power.new }
    ensures paid { IsClearPaid power.new result }
    ensures answer { IsPlaceAnswer k.old k.new files.now ino at bytes.now result }
{
    match files.overlay(ino).find((at / 4096) as u32) {
        Some((staging, block)) => put_staged(k, staging, block, at, bytes, power),
        None => put_mapped(k, ino, at, bytes, power),
    }
}

/// Writes bytes of a call into its file in place, from byte `at` on, and makes them durable: those that lie in a staged
/// block there, all others in the blocks of the map. The power is on; the bytes are those of the call, below the file's end,
/// and each lies in a block that the file has (`CanPlace`). It takes no memory.
///
/// `PowerLost` comes exactly where the power is off at the return: then each of the bytes is the old one or the new one,
/// and all else is as before.
///
/// # Steps
///
/// At most 577 for each block that the bytes reach; one at least, where there is some byte.
pub fn put_in_place(
    k: &mut KSplit,
    files: &FileTable,
    ino: u32,
    at: u64,
    bytes: &[u8],
    power: &mut Power,
) -> Commit
    requires on { is_on power.old ≡ true }
    requires can { CanPlace k.old files.now ino at bytes.now }
    ensures steps { Steps (577 * blocks_reached at (length bytes.now)) power.old power.new }
    ensures took { is_on power.new ≡ true → 0 < length bytes.now
        → TakesAStep power.old power.new }
    ensures paid { IsClearPaid power.new result }
    ensures answer { IsPlaceAnswer k.old k.new files.now ino at bytes.now result }
{
    let mut done = 0;
    while done < bytes.len() {
        let count = piece_length(files, ino, at + done as u64, bytes.len() - done);
        match put_piece(
            k,
            files,
            ino,
            at + done as u64,
            &bytes[done..done + count],
            power,
        ) {
            Commit::PowerLost => return Commit::PowerLost,
            Commit::Done => done += count,
        }
    }
    Commit::Done
}
