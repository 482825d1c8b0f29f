//! Where blocks lie that are kept as free, and which staging file is kept as empty.
ghost use Rattle.std.specs.Prelude.{◌≡◌, ◌≤◌, ◌<◌, ◌+◌, ◌||◌, ℕ, true, false, slice_index_or, IfSome, IfNone};
ghost use Rattle.k_split.specs.extent_model.Extents.{is_within};
ghost use Rattle.staging_files.specs.Keeps.{AreTaken, is_kept_free, IsStaging};
ghost use Rattle.staging_files.specs.Reserves.{has_empty, HasNoFreeRun, IsFreeRun, IsLowestEmpty, IsLowestRun};

use crate::staging::Staging;

// The most blocks that a staging file is given.
const MOST: u32 = 64;

// A block of a staging file.
#[derive(Clone, Copy)]
pub(crate) struct Place {
    pub(crate) staging: u32,
    pub(crate) block: u32,
}

// Marks blocks of a staging file as taken.
fn mark(taken: &mut [bool; 64], first: u32, count: u32)
    requires { first + count ≤ 64 }
    ensures { (b : ℕ) → b < 64 → slice_index_or taken.new b false
        ≡ (slice_index_or taken.old b false || is_within first count b) }
{
    for b in first..first + count {
        taken[b as usize] = true;
    }
}

impl Staging {
    // Which blocks of the staging file runs that are out have.
    fn taken_in(&self, staging: u32) -> [bool; 64]
        ensures { AreTaken self.now.out staging result }
    {
        let mut taken = [false; 64];
        for run in &self.out {
            if run.staging == staging {
                mark(&mut taken, run.block, run.count);
            }
        }
        taken
    }

    // Whether the block of the staging file is kept as free.
    fn keeps_free(&self, taken: &[bool; 64], staging: u32, block: u32) -> bool
        requires staging { IsStaging staging }
        requires taken { AreTaken self.now.out staging taken.now }
        ensures { result ≡ is_kept_free self.now staging block }
    {
        block < self.given[staging as usize - 1] && !taken[block as usize]
    }

    // Whether `count` blocks of the staging file, from `block` on, are kept as free.
    fn has_free_run(&self, taken: &[bool; 64], count: u32, staging: u32, block: u32) -> bool
        requires staging { IsStaging staging }
        requires taken { AreTaken self.now.out staging taken.now }
        requires fits { block + count < 1000 }
        ensures yes { result ≡ true → IsFreeRun self.now count staging block }
        ensures no { result ≡ false → ¬ IsFreeRun self.now count staging block }
    {
        for b in block..block + count {
            if !self.keeps_free(taken, staging, b) {
                return false;
            }
        }
        true
    }

    // The lowest such blocks of the staging file.
    fn lowest_in(&self, count: u32, staging: u32) -> Option<u32>
        requires staging { IsStaging staging }
        requires some { 1 ≤ count }
        requires most { count ≤ 64 }
        ensures found { IfSome result (λ block. IsFreeRun self.now count staging block) }
        ensures lowest { IfSome result (λ block. (c : ℕ) → c < block
            → ¬ IsFreeRun self.now count staging c) }
        ensures none { IfNone result ((c : ℕ) → ¬ IsFreeRun self.now count staging c) }
    {
        let _ = &self.out;
        let taken = self.taken_in(staging);
        for block in 0..MOST {
            if self.has_free_run(&taken, count, staging, block) {
                return Some(block);
            }
        }
        None
    }

    // The lowest such blocks of the lowest such staging file.
    pub(crate) fn lowest_run(&self, count: u32) -> Option<Place>
        requires some { 1 ≤ count }
        requires most { count ≤ 64 }
        ensures found { IfSome result (λ place.
            IsLowestRun self.now count place.staging place.block) }
        ensures none { IfNone result (HasNoFreeRun self.now count) }
    {
        for staging in 1..5 {
            if let Some(block) = self.lowest_in(count, staging) {
                return Some(Place { staging, block });
            }
        }
        None
    }

    // The lowest staging file that is kept as empty.
    pub(crate) fn lowest_empty(&self) -> Option<u32>
        ensures found { IfSome result (λ staging. IsLowestEmpty self.now staging) }
        ensures some { IfSome result (λ staging. has_empty self.now ≡ true) }
        ensures none { IfNone result (has_empty self.now ≡ false) }
    {
        for staging in 1..5 {
            if self.given[staging as usize - 1] == 0 {
                return Some(staging);
            }
        }
        None
    }
}
