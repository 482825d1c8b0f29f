//! Bytes of a file, written over in place.
ghost use Rattle.std.specs.Prelude.{◌≡◌, ◌+◌, ◌*◌, ◌/◌, ◌%◌, ◌^◌, ◌<◌, ◌≤◌, ℕ, true, false, length, replicate, take, IsSome};
ghost use Rattle.k_map_plans.specs.k_journal.Commits.{TakesAStep};
ghost use Rattle.block_io.specs.Overwrites.{blocks_reached, MayOverwrite};
ghost use Rattle.block_io.specs.pm_model.Powers.{is_on, Steps};
ghost use Rattle.block_io.specs.extent_model.Extents.{disk_at};
ghost use Rattle.layout_model.specs.declared.lines.Kind.TheVariants.{File};
ghost use Rattle.block_io.specs.image_model.Volume.{extents, inode};
ghost use Rattle.k_split.specs.Bytes.{IsOverwriteAnswer, IsOverwritePaid, MayWriteBytes, tail_zeros, zeros_behind};
ghost use Rattle.k_split.specs.Loans.{MayLend};

use crate::faults::KFault;
use crate::state::KSplit;
use block_io::write_bytes;
use extent_map::ExtentMap;
use pm_lines::Power;

// How many bytes clean a file from byte `from` on: those to the end of its block, and none of a hole.
fn tail_length(map: &ExtentMap, from: u64) -> usize
    requires { from ≤ 2 ^ 24 }
    ensures count { result ≡ length (zeros_behind (disk_at map.now (from / 4096)) from) }
    ensures zeros { replicate result 0 ≡ zeros_behind (disk_at map.now (from / 4096)) from }
    ensures mapped { 0 < result → IsSome (disk_at map.now (from / 4096)) }
    ensures in_block { from % 4096 + result ≤ 4096 }
    ensures short { from + result ≤ 2 ^ 24 }
{
    match map.lookup((from / 4096) as u32) {
        Some(_) => (4096 - from % 4096) as usize,
        None => 0,
    }
}

// The first `count` bytes.
fn front_of(bytes: &[u8], count: usize) -> &[u8]
    requires { count ≤ length bytes.now }
    ensures { result.now ≡ take count bytes.now }
{
    &bytes[..count]
}

impl KSplit {
    // Writes bytes over in the blocks that the map of an inode names, and makes them durable.
    pub(crate) fn overwrite(
        &mut self,
        ino: u32,
        first: u64,
        bytes: &[u8],
        power: &mut Power,
    ) -> Result<(), KFault>
        requires on { self.old.lost ≡ false }
        requires short { first + length bytes.now ≤ 2 ^ 24 }
        requires below { ino < length self.old.volume.inodes }
        requires may { MayOverwrite (extents self.old.volume ino) first (length bytes.now) self.old.cells }
        ensures steps { Steps (576 * blocks_reached first (length bytes.now) + 1) power.old power.new }
        ensures took { is_on power.new ≡ true → 0 < length bytes.now
            → TakesAStep power.old power.new }
        ensures paid { IsOverwritePaid power.new result }
        ensures answer { IsOverwriteAnswer ino first bytes.now self.old self.new result }
    {
        match self.tables.map(ino) {
            Some(map) => write_bytes(&mut self.pm, power, map, first, bytes),
            None => unreachable!(),
        }
        if power.on() {
            return Ok(());
        }
        self.lost = true;
        Err(KFault::PowerLost)
    }

    /// Writes bytes of a live file over in place, from byte `offset` of it on, and makes them durable.
    /// Each block of the range has a disk block. It takes no memory, and only the power stops it: then
    /// each byte of the range is the old one or the new one. An empty write does nothing.
    ///
    /// # Errors
    ///
    /// `PowerLost` alone, exactly where the power is off at the return.
    ///
    /// # Steps
    ///
    /// At most 576 a block that the range reaches, and one more; one at least, where it puts some byte.
    pub fn write_in_place(
        &mut self,
        ino: u32,
        offset: u64,
        bytes: &[u8],
        power: &mut Power,
    ) -> Result<(), KFault>
        requires awake { self.old.lost ≡ true → is_on power.old ≡ false }
        requires may { self.old.lost ≡ false
            → MayWriteBytes self.old.volume ino offset (length bytes.now) }
        ensures steps { Steps (576 * blocks_reached offset (length bytes.now) + 1) power.old power.new }
        ensures took { is_on power.new ≡ true → 0 < length bytes.now
            → TakesAStep power.old power.new }
        ensures paid { IsOverwritePaid power.new result }
        ensures answer { IsOverwriteAnswer ino offset bytes.now self.old self.new result }
    {
        if !power.on() {
            self.lost = true;
            return Err(KFault::PowerLost);
        }
        if bytes.len() == 0 {
            return Ok(());
        }
        self.overwrite(ino, offset, bytes, power)
    }

    /// Sets the bytes of a live file from byte `from` to the end of its block to zero, where the block
    /// has a disk block, and makes that durable. `from` is not before the file's end. It takes no
    /// memory, and only the power stops it: then each of these bytes is the old one or zero.
    ///
    /// # Errors
    ///
    /// `PowerLost` alone, exactly where the power is off at the return.
    ///
    /// # Steps
    ///
    /// At most 577.
    pub fn clean_tail(&mut self, ino: u32, from: u64, power: &mut Power) -> Result<(), KFault>
        requires awake { self.old.lost ≡ true → is_on power.old ≡ false }
        requires short { from ≤ 2 ^ 24 }
        requires file { self.old.lost ≡ false → (inode self.old.volume ino).kind ≡ File }
        requires behind { self.old.lost ≡ false → (inode self.old.volume ino).size ≤ from }
        ensures steps { Steps 577 power.old power.new }
        ensures paid { IsOverwritePaid power.new result }
        ensures answer { IsOverwriteAnswer ino from (tail_zeros self.old.volume ino from) self.old self.new result }
    {
        if !power.on() {
            self.lost = true;
            return Err(KFault::PowerLost);
        }
        let count = match self.tables.map(ino) {
            Some(map) => tail_length(map, from),
            None => unreachable!(),
        };
        let zeros = [0; 4096];
        let some = front_of(&zeros, count);
        self.write_in_place(ino, from, some, power)
    }

    /// Writes bytes into block `block` of a staging file over in place, from byte `offset` of the block
    /// on, and makes them durable. The file, inode 1 to 4, has the block, which is not lent: each of its
    /// words has one candidate. It takes no memory, and only the power stops it: then each byte of the
    /// range is the old one or the new one.
    ///
    /// # Errors
    ///
    /// `PowerLost` alone, exactly where the power is off at the return.
    ///
    /// # Steps
    ///
    /// At most 577; one at least, where it puts some byte.
    pub fn write_staged(
        &mut self,
        staging: u32,
        block: u32,
        offset: u32,
        bytes: &[u8],
        power: &mut Power,
    ) -> Result<(), KFault>
        requires awake { self.old.lost ≡ true → is_on power.old ≡ false }
        requires short { offset + length bytes.now ≤ 4096 }
        requires may { self.old.lost ≡ false
            → (b : ℕ) × MayLend self.old.volume self.old.cells staging block b }
        ensures steps { Steps 577 power.old power.new }
        ensures took { is_on power.new ≡ true → 0 < length bytes.now
            → TakesAStep power.old power.new }
        ensures paid { IsOverwritePaid power.new result }
        ensures answer { IsOverwriteAnswer staging (4096 * block + offset) bytes.now
            self.old self.new result }
    {
        if !power.on() {
            self.lost = true;
            return Err(KFault::PowerLost);
        }
        let first = 4096 * u64::from(block) + u64::from(offset);
        self.overwrite(staging, first, bytes, power)
    }
}
