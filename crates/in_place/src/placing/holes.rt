//! Holes of a file get blocks.
ghost use Rattle.std.specs.Prelude.{◌≡◌, ◌+◌, ◌^◌, ◌<◌, ◌≤◌, ◌&&◌, true, length, is_none, Ok};
ghost use Rattle.live_step_laws.specs.k_split_laws.pm_model.Powers.{is_on, Steps};
ghost use Rattle.live_step_laws.specs.block_counts.Counts.{blocks_for};
ghost use Rattle.live_step_laws.specs.k_split_laws.extent_model.Extents.{disk_at};
ghost use Rattle.write_plan.specs.file_overlay.Runs.{staged_at};
ghost use Rattle.write_plan.specs.live_model.file_table.Files.{size_in};
ghost use Rattle.live_step_laws.specs.k_split_laws.layout_model.declared.lines.Kind.TheVariants.{File};
ghost use Rattle.live_step_laws.specs.k_split_laws.image_model.Volume.{inode};
ghost use Rattle.live_step_laws.specs.k_split_laws.k_split.MapChanges.{free_blocks_in};
ghost use Rattle.in_place.specs.Holes.{absent_count, HasRuns, holes_need, IsHolesAnswer, IsHolesPaid, IsUnstaged};

use crate::placing::laws;
use crate::tails::FileTable;
use extent_map::ExtentMap;
use file_overlay::Overlay;
use live_step_laws::{KFault, KSplit, Staging};
use pm_lines::Power;
use std::alloc::{AllocError, Global};

/// How the filling of holes went.
#[derive(Clone, Copy, Debug, PartialEq, Eq)]
pub enum Holes {
    /// The range has all its blocks.
    Filled,
    /// Too few blocks are free: how many have to be, and how many are. Nothing was done.
    Lacking { need: u64, room: u64 },
    /// The power is off.
    PowerLost,
}

// How many file blocks from `first` on and before `end` come before one that is staged.
pub(crate) fn unstaged_from(overlay: &Overlay, first: u32, end: u32) -> u32
    requires { first ≤ end }
    ensures { IsUnstaged overlay.now.runs first end result }
{
    for block in first..end {
        if overlay.find(block).is_some() {
            return block - first;
        }
    }
    end - first
}

// Whether a file with this map and overlay lacks a block.
fn lacks(map: &ExtentMap, overlay: &Overlay, block: u32) -> bool
    ensures { result ≡ (is_none (disk_at map.now block) && is_none (staged_at overlay.now.runs block)) }
{
    map.lookup(block).is_none() && overlay.find(block).is_none()
}

// How many of `count` file blocks from `first` on the file has neither in its map nor staged.
fn count_absent(k: &KSplit, files: &FileTable, ino: u32, first: u32, count: u32) -> u32
    requires known { ino < length files.now.sizes }
    requires file { (inode k.now.volume ino).kind ≡ File }
    requires short { first + count ≤ 4096 }
    ensures { result ≡ absent_count k.now.volume files.now ino first count }
{
    let overlay = files.overlay(ino);
    let Some(map) = k.map(ino) else {
        unreachable!()
    };
    let mut absent = 0;
    for block in first..first + count {
        if lacks(map, overlay, block) {
            absent += 1;
        }
    }
    absent
}

// Fills the holes of a range gap by gap; there are some, and there is room for all of them.
fn fill_gaps(
    alloc: Global,
    k: &mut KSplit,
    staging: &Staging,
    files: &FileTable,
    ino: u32,
    first: u32,
    count: u32,
    power: &mut Power,
) -> Result<Holes, AllocError>
    requires on { is_on power.old ≡ true }
    requires has { HasRuns k.old staging.now files.now ino }
    requires few { count ≤ 33 }
    requires range { first + count ≤ blocks_for (size_in files.now ino) }
    requires some { 1 ≤ absent_count k.old.volume files.now ino first count }
    requires room { holes_need k.old staging.now files.now ino first count ≤ free_blocks_in k.old }
    ensures steps { Steps (2 ^ 20) power.old power.new }
    ensures paid { IsHolesPaid power.old power.new result }
    ensures answer { IsHolesAnswer k.old k.new staging.now files.now ino first count result }
{
    laws::holes_are_filled_as_asked();
    laws::holes_are_filled_in_flight();
    let mut block = first;
    while block < first + count {
        let bare = unstaged_from(files.overlay(ino), block, first + count);
        match k.fill_holes(alloc, ino, block, bare, power) {
            Ok(()) => block += bare + 1,
            Err(KFault::NoMemory) => return Err(AllocError),
            Err(KFault::PowerLost) => return Ok(Holes::PowerLost),
            Err(KFault::Refused(_)) => unreachable!(),
            Err(KFault::Room(_)) => unreachable!(),
        }
    }
    Ok(Holes::Filled)
}

/// Gives blocks of zeros to those of `count` file blocks from `first` on that the file has neither in its map nor staged,
/// one change for each gap between staged blocks. They lie below the file's end; the power is on, the World stands together,
/// and no job of the file is out.
///
/// It answers `Lacking` exactly where a block is absent and fewer blocks are free than those that are, one for each run
/// that is out, and the reserve less 2; nothing was done then. `PowerLost` comes exactly where the power is off at the
/// return.
///
/// # Errors
///
/// Out of memory: no call sees a change.
///
/// # Steps
///
/// At most 2^20; none where no block is absent.
pub fn fill_absent(
    alloc: Global,
    k: &mut KSplit,
    staging: &Staging,
    files: &FileTable,
    ino: u32,
    first: u32,
    count: u32,
    power: &mut Power,
) -> Result<Holes, AllocError>
    requires on { is_on power.old ≡ true }
    requires has { HasRuns k.old staging.now files.now ino }
    requires few { count ≤ 33 }
    requires range { first + count ≤ blocks_for (size_in files.now ino) }
    ensures steps { Steps (2 ^ 20) power.old power.new }
    ensures spared { absent_count k.old.volume files.now ino first count ≡ 0 → power.new ≡ power.old }
    ensures paid { IsHolesPaid power.old power.new result }
    ensures enough { result ≡ Ok Holes.Filled → 1 ≤ absent_count k.old.volume files.now ino first count
        → holes_need k.old staging.now files.now ino first count ≤ free_blocks_in k.old }
    ensures answer { IsHolesAnswer k.old k.new staging.now files.now ino first count result }
{
    let absent = count_absent(k, files, ino, first, count);
    if absent == 0 {
        return Ok(Holes::Filled);
    }
    let need = u64::from(absent) + u64::from(staging.owed()) + u64::from(k.geometry().reserve())
        - 2;
    let room = u64::from(k.free_blocks());
    if room < need {
        return Ok(Holes::Lacking { need, room });
    }
    fill_gaps(alloc, k, staging, files, ino, first, count, power)
}
