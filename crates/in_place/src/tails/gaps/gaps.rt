//! The end of a file is zeroed in place.
ghost use Rattle.std.specs.Prelude.{◌≡◌, ◌+◌, ◌/◌, ◌%◌, ◌^◌, ◌<◌, ◌≤◌, ℕ, true, false, length, replicate, take, IsSome};
ghost use Rattle.live_step_laws.specs.k_split_laws.pm_model.Powers.{is_on, Steps};
ghost use Rattle.live_step_laws.specs.k_split_laws.layout_model.declared.lines.Kind.TheVariants.{File};
ghost use Rattle.live_step_laws.specs.k_split_laws.image_model.Volume.{inode};
ghost use Rattle.live_step_laws.specs.k_split_laws.extent_model.Extents.{disk_at};
ghost use Rattle.write_plan.specs.live_model.file_table.Files.{size_in};
ghost use Rattle.live_step_laws.specs.k_split_laws.k_split.Bytes.{zeros_behind};
ghost use Rattle.write_plan.specs.eof_laws.Ends.{FilesEnd};
ghost use Rattle.write_plan.specs.live_model.data_route.Writes.{cleans};
ghost use Rattle.in_place.specs.Zeros.{block_end, staged_place};
ghost use Rattle.live_step_laws.specs.k_split_laws.k_split.Loans.{MayLend};
ghost use Rattle.in_place.specs.Gaps.{block_start, HasFile, IsCleared, IsClearPaid, IsZeroed};

use crate::tails::laws;
use crate::tails::zeros::FileTable;
use extent_map::ExtentMap;
use k_journal::Commit;
use live_step_laws::KSplit;
use pm_lines::Power;

// How many bytes of a file there are from byte `from` to the end of its block; none of a hole.
fn rest_length(map: &ExtentMap, from: u64) -> usize
    requires { from < 2 ^ 24 }
    ensures zeros { replicate result 0 ≡ zeros_behind (disk_at map.now (from / 4096)) from }
    ensures mapped { 0 < result → IsSome (disk_at map.now (from / 4096)) }
    ensures in_block { from % 4096 + result ≤ 4096 }
{
    match map.lookup((from / 4096) as u32) {
        Some(_) => (4096 - from % 4096) as usize,
        None => 0,
    }
}

// The first `count` bytes.
fn front_of(bytes: &[u8], count: usize) -> &[u8]
    requires { count ≤ length bytes.now }
    ensures { result.now ≡ take count bytes.now }
{
    &bytes[..count]
}

// Zeroes the block of a file from byte `from` on, where its map has the block.
fn zero_mapped(k: &mut KSplit, ino: u32, from: u64, power: &mut Power) -> Commit
    requires on { k.old.lost ≡ false }
    requires file { (inode k.old.volume ino).kind ≡ File }
    requires below { ino < length k.old.volume.inodes }
    requires short { from < 2 ^ 24 }
    ensures steps { Steps 577 power.old power.new }
    ensures paid { IsClearPaid power.new result }
    ensures answer { IsZeroed ino from k.old k.new result }
{
    let count = match k.map(ino) {
        Some(map) => rest_length(map, from),
        None => unreachable!(),
    };
    let zeros = [0; 4096];
    match k.write_in_place(ino, from, front_of(&zeros, count), power) {
        Ok(()) => Commit::Done,
        Err(_) => Commit::PowerLost,
    }
}

// Zeroes a block of a staging file from the place of byte `from` on. It has the block, which is not lent.
fn zero_staged(k: &mut KSplit, staging: u32, block: u32, from: u64, power: &mut Power) -> Commit
    requires on { k.old.lost ≡ false }
    requires may { (b : ℕ) × MayLend k.old.volume k.old.cells staging block b }
    ensures steps { Steps 577 power.old power.new }
    ensures paid { IsClearPaid power.new result }
    ensures answer { IsZeroed staging (staged_place block from) k.old k.new result }
{
    let offset = (from % 4096) as u32;
    let zeros = [0; 4096];
    let some = front_of(&zeros, 4096 - offset as usize);
    match k.write_staged(staging, block, offset, some, power) {
        Ok(()) => Commit::Done,
        Err(_) => Commit::PowerLost,
    }
}

// Zeroes what lies behind the end of a file, in the block of this end.
fn zero_tail(k: &mut KSplit, files: &FileTable, ino: u32, end: u64, power: &mut Power) -> Commit
    requires has { HasFile k.old files.now ino }
    requires end { end ≡ size_in files.now ino }
    requires short { end < 2 ^ 24 }
    ensures steps { Steps 577 power.old power.new }
    ensures paid { IsClearPaid power.new result }
    ensures answer { IsCleared ino files.now (block_end end) k.old k.new result }
{
    laws::blocks_are_zeroed_in_flight();
    laws::the_end_of_a_file_is_cleaned_in_flight();
    match files.overlay(ino).find((end / 4096) as u32) {
        Some((staging, block)) => zero_staged(k, staging, block, end, power),
        None => zero_mapped(k, ino, end, power),
    }
}

/// Zeroes in place what lies between the end of a file, by what is kept of it, and the block of byte
/// `start`, if the plan of a write there says so: as nothing lies past the ends of files, that is in the block
/// of the end alone. The power is on, and no job of the file is out. Nothing where the file ends with a block,
/// or in that of `start` or behind it.
///
/// `PowerLost` comes exactly where the power is off at the return. It takes no memory.
///
/// # Steps
///
/// At most 577.
pub fn clear_gap(
    k: &mut KSplit,
    files: &FileTable,
    ino: u32,
    start: u64,
    clean_tail: bool,
    power: &mut Power,
) -> Commit
    requires power { is_on power.old ≡ true }
    requires plan { clean_tail ≡ cleans (size_in files.now ino) start }
    requires has { HasFile k.old files.now ino }
    requires ends { FilesEnd k.old.volume files.now }
    ensures steps { Steps 577 power.old power.new }
    ensures paid { IsClearPaid power.new result }
    ensures answer { IsCleared ino files.now (block_start start) k.old k.new result }
{
    let size = files.size(ino);
    if clean_tail {
        zero_tail(k, files, ino, size, power)
    } else {
        Commit::Done
    }
}
