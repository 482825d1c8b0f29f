//! Runs are reserved: the two ways, in their order.
ghost use Rattle.std.specs.Prelude.{◌≡◌, ◌≤◌, ◌<◌, ◌+◌, ◌^◌, [], true, false, length, IfSome, IfNone, IfOk, OnErr, OnOk, if◌then◌else◌};
ghost use Rattle.k_split.specs.layout_model.Places.{reserve};
ghost use Rattle.k_split.specs.image_model.Volume.{extents};
ghost use Rattle.k_split.specs.k_map_plans.Plans.{IsStagingFile};
ghost use Rattle.k_split.specs.MapChanges.{free_blocks_in};
ghost use Rattle.k_split.specs.Order.{IsInOrder};
ghost use Rattle.k_split.specs.pm_model.Powers.{is_on, Steps};
ghost use Rattle.staging_files.specs.Keeps.{Agrees, AreFreeSingle, IsKeptEmpty, IsRunSingle, IsStaged, IsStaging, IsThere};
ghost use Rattle.staging_files.specs.Reserves.{AgreesAfter, fault_of, has_empty, IsFirstWay, IsFreeRun, IsGiveAnswer, IsLowestEmpty, IsReserveAnswer, IsReservePaid, LacksFirstWay, LacksSecondWay, need, run_at, share, wanted, with_out};

use crate::looks::Place;
use crate::runs::{StageFault, StageRun};
use crate::staging::Staging;
use k_split::{KFault, KSplit};
use pm_lines::Power;
use std::alloc::{AllocError, Global};

// The most blocks that a staging file is given.
const MOST: u32 = 64;

// Why no run is handed out, by why K-Split did not give the staging file its blocks.
fn fault_of(fault: KFault) -> StageFault
    ensures { result ≡ fault_of fault }
{
    match fault {
        KFault::PowerLost => StageFault::PowerLost,
        KFault::Refused(_) | KFault::Room(_) | KFault::NoMemory => StageFault::NoMemory,
    }
}

// The run of `count` blocks of a staging file from `block` on.
fn run_at(k: &KSplit, count: u32, staging: u32, block: u32) -> StageRun
    requires { IsStagingFile staging k.now.volume }
    ensures { result ≡ run_at k.now count staging block }
{
    match k.node(staging) {
        Some(node) => StageRun {
            staging,
            block,
            count,
            generation: node.generation,
        },
        None => unreachable!(),
    }
}

impl Staging {
    // How many blocks have to be free beside those of a new run.
    fn wanted(&self, k: &KSplit) -> u32
        ensures count { result ≡ wanted self.now k.now }
        ensures bounded { result ≤ 20000 }
        ensures keeps { IsStaged self.now }
    {
        self.owed() + k.geometry().reserve() - 2
    }

    // The place of a run by the first way.
    fn first_way(&self, k: &KSplit, count: u32) -> Option<Place>
        requires some { 1 ≤ count }
        requires most { count ≤ 33 }
        ensures found { IfSome result (λ place.
            IsFirstWay self.now k.now count place.staging place.block) }
        ensures none { IfNone result (LacksFirstWay self.now k.now count) }
        ensures keeps { IsStaged self.now }
    {
        if self.wanted(k) <= k.free_blocks() {
            self.lowest_run(count)
        } else {
            None
        }
    }

    // How many blocks have to be free for a staging file to get blocks.
    fn need(&self, k: &KSplit, count: u32) -> u32
        requires { count ≤ 33 }
        ensures { result ≡ need self.now k.now count }
    {
        count + self.wanted(k) + 1
    }

    // The staging file that gets blocks on the second way.
    fn second_way(&self, k: &KSplit, count: u32) -> Option<u32>
        requires { count ≤ 33 }
        ensures room { IfSome result (λ staging. need self.now k.now count ≤ free_blocks_in k.now) }
        ensures found { IfSome result (λ staging. IsLowestEmpty self.now staging) }
        ensures none { IfNone result (LacksSecondWay self.now k.now count) }
    {
        if self.need(k, count) <= k.free_blocks() {
            self.lowest_empty()
        } else {
            None
        }
    }

    // How many blocks it gets.
    fn share(&self, k: &KSplit, count: u32) -> u32
        ensures { result ≡ share self.now k.now count }
    {
        let spare = k.free_blocks().saturating_sub(self.wanted(k) + 1);
        count.max(spare / 2).min(MOST)
    }

    // How many blocks are free for a staging file that is kept as empty.
    fn room(&self, k: &KSplit) -> u32
        ensures { result ≡ (if has_empty self.now then free_blocks_in k.now else 0) }
    {
        match self.lowest_empty() {
            Some(_) => k.free_blocks(),
            None => 0,
        }
    }

    // Hands out a run of blocks that are kept as free.
    fn take(&mut self, run: StageRun) -> Result<(), AllocError>
        requires staging { IsStaging run.staging }
        requires some { 1 ≤ run.count }
        requires free { IsFreeRun self.old run.count run.staging run.block }
        ensures ok { OnOk result (self.new ≡ with_out run self.old) }
        ensures err { OnErr result (self.new ≡ self.old) }
    {
        self.out.push(run)?;
        Ok(())
    }

    // Gives a staging file its share, and hands out the first `count` blocks of it.
    fn give(
        &mut self,
        alloc: Global,
        k: &mut KSplit,
        staging: u32,
        count: u32,
        share: u32,
        power: &mut Power,
    ) -> Result<StageRun, StageFault>
        requires power { is_on power.old ≡ true }
        requires on { k.old.lost ≡ false }
        requires unbatched { k.old.batched ≡ false }
        requires order { IsInOrder k.old }
        requires staging { IsStaging staging }
        requires empty { IsKeptEmpty self.old staging }
        requires bare { extents k.old.volume staging ≡ [] }
        requires some { 1 ≤ count }
        requires fits { count ≤ share }
        requires most { share ≤ 64 }
        requires room { share + reserve k.old.volume.geometry ≤ free_blocks_in k.old + 1 }
        ensures steps { Steps (2 ^ 15) power.old power.new }
        ensures paid { IsReservePaid power.old power.new result }
        ensures answer { IsGiveAnswer staging count share self.old k.old self.new k.new result }
    {
        if self.out.reserve(1).is_err() {
            return Err(StageFault::NoMemory);
        }
        match k.preallocate(alloc, staging, share, power) {
            Err(fault) => Err(fault_of(fault)),
            Ok(()) => {
                let run = run_at(k, count, staging, 0);
                self.given[staging as usize - 1] = share;
                self.out.push_reserved(run);
                Ok(run)
            }
        }
    }

    /// Reserves a run of `count` blocks, from 1 to 33, and says the generation of its staging file.
    ///
    /// With `owed` runs out at the call and the reserve R of the image, it goes the first of two ways
    /// that it can. 1. At least `owed + R - 2` blocks are free, and a staging file has `count`
    /// consecutive blocks that are kept as free: the run is the lowest such blocks of the lowest such
    /// staging file. 2. At least `count + owed + R - 1` blocks are free, and a staging file is kept as
    /// empty: the lowest one gets blocks, and the run is the first of them. It gets `count` blocks, or
    /// half of those that are free above `owed + R - 1` if these are more, but at most 64. At least
    /// `owed + R - 2` blocks are free then.
    ///
    /// What the staging keeps agrees with K-Split, whose changes do not gather in a batch.
    ///
    /// # Errors
    ///
    /// `PowerLost` exactly where the power is off at the return. `NoRoom` exactly where neither way can
    /// be gone: nothing is changed. `NoMemory`: nothing is changed.
    ///
    /// # Steps
    ///
    /// At most 2^15.
    pub fn reserve(
        &mut self,
        alloc: Global,
        k: &mut KSplit,
        count: u32,
        power: &mut Power,
    ) -> Result<StageRun, StageFault>
        requires awake { k.old.lost ≡ true → is_on power.old ≡ false }
        requires unbatched { k.old.lost ≡ false → k.old.batched ≡ false }
        requires agrees { k.old.lost ≡ false → Agrees self.old k.old }
        requires some { 1 ≤ count }
        requires most { count ≤ 33 }
        ensures steps { Steps (2 ^ 15) power.old power.new }
        ensures paid { IsReservePaid power.old power.new result }
        ensures answer { IsReserveAnswer count self.old k.old self.new k.new result }
        ensures agrees { AgreesAfter self.new k.new result }
        ensures there { IfOk result (IsThere k.new) }
        ensures leaves { IfOk result (λ run. k.old.batched ≡ false
            → wanted self.old k.old ≤ free_blocks_in k.new) }
        ensures single { IfOk result (λ run. AreFreeSingle self.old k.old
            → IsRunSingle k.new run × AreFreeSingle self.new k.new) }
    {
        if k.is_lost() || !power.on() {
            return Err(StageFault::PowerLost);
        }
        if let Some(place) = self.first_way(k, count) {
            let run = run_at(k, count, place.staging, place.block);
            return match self.take(run) {
                Ok(()) => Ok(run),
                Err(_) => Err(StageFault::NoMemory),
            };
        }
        match self.second_way(k, count) {
            None => Err(StageFault::NoRoom {
                need: self.need(k, count),
                room: self.room(k),
            }),
            Some(staging) => {
                let share = self.share(k, count);
                self.give(alloc, k, staging, count, share, power)
            }
        }
    }
}
