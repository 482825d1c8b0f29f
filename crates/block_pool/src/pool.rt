//! The pool itself.
ghost use Rattle.std.specs.Prelude.{◌≡◌, ℕ, ◌+◌, ◌<◌, ◌^◌, ◌↔◌, ◌||◌, true, false, length, All, IsTrue, IsNone, IfOk, IfSome, IfNone, OnErr};
ghost use Rattle.block_pool.specs.FreeSets.{has_block, is_free_at, free_count, LiesWithin, SameBlocks, IsUnused, Takes, Gives};

use crate::bits::{count_set, is_set, move_bits, set};
use crate::blocks::{clear_blocks, clear_extents, lowest_blocks};
use extent_map::Extent;
use std::alloc::{AllocError, Global};
use std::marker::Model;

/// A set of free blocks among the blocks of a range.
#[derive(Debug, Drop)]
pub struct Pool {
    first: u32,
    count: u32,
    free: u32,
    words: Vec<u64>,
}

impl Model for Pool {
    ghost use Rattle.block_pool.specs.FreeSets.{FreeSet};
    ghost use Rattle.block_pool.specs.Bits.{marks_of, IsKept};

    ghost Value = { FreeSet };

    ghost view = { λ p. record { first = p.first; marks = marks_of p.words.items p.count } };

    ghost invariant = { λ p. IsKept p.first p.count p.free p.words.items };
}

impl Pool {
    /// The pool of `count` blocks from `first` on, of which those are free that no used extent has.
    pub fn new(alloc: Global, first: u32, count: u32, used: &[Extent]) -> Result<Pool, AllocError>
        requires fits { first + count < 2 ^ 32 }
        requires within { All (LiesWithin first count) used.now }
        ensures { IfOk result (λ pool. IsUnused first count used.now pool) }
    {
        let mut words = vec![in alloc; u64::MAX; count.div_ceil(64) as usize]?;
        clear_extents(&mut words, first, count, used);
        let free = count_set(&words, count);
        Ok(Pool {
            first,
            count,
            free,
            words,
        })
    }

    /// The pool of `count` blocks from `first` on, of which none is free.
    pub fn none(alloc: Global, first: u32, count: u32) -> Result<Pool, AllocError>
        requires { first + count < 2 ^ 32 }
        ensures first { IfOk result (λ pool. pool.first ≡ first) }
        ensures count { IfOk result (λ pool. length pool.marks ≡ count) }
        ensures none { IfOk result (λ pool. (b : ℕ) → is_free_at pool b ≡ false) }
    {
        let words = vec![in alloc; 0; count.div_ceil(64) as usize]?;
        Ok(Pool {
            first,
            count,
            free: 0,
            words,
        })
    }

    /// How many blocks are free.
    pub fn free(&self) -> u32
        ensures { result ≡ free_count self.now }
    {
        self.free
    }

    /// Whether a block is free. A block outside the range is not.
    pub fn is_free(&self, block: u32) -> bool
        ensures { result ≡ is_free_at self.now block }
    {
        if block < self.first {
            return false;
        }
        let place = block - self.first;
        place < self.count && is_set(&self.words, place as usize)
    }

    /// Takes the n lowest free blocks and answers them in rising order. None, exactly where fewer
    /// are free, and an error leave the pool as it was.
    pub fn take(&mut self, n: u32) -> Result<Option<Vec<u32>>, AllocError>
        ensures taken { IfOk result (λ answer.
            IfSome answer (λ taken. Takes n taken.items self.old self.new)) }
        ensures few { (result ≡ Ok None) ↔ (free_count self.old < n) }
        ensures none { IfOk result (λ answer. IfNone answer (self.new ≡ self.old)) }
        ensures err { OnErr result (self.new ≡ self.old) }
    {
        if self.free < n {
            return Ok(None);
        }
        let alloc = *self.words.allocator();
        let taken = lowest_blocks(alloc, &self.words, self.first, self.count, n)?;
        clear_blocks(&mut self.words, self.first, self.count, &taken);
        self.free -= n;
        Ok(Some(taken))
    }

    /// Makes a block of the range free that is not. It takes no memory.
    pub fn give(&mut self, block: u32)
        requires in_range { IsTrue (has_block self.old block) }
        requires used { is_free_at self.old block ≡ false }
        ensures { Gives block self.old self.new }
    {
        set(&mut self.words, (block - self.first) as usize);
        self.free += 1;
    }

    /// Makes free what is free in another pool of the same blocks, where nothing is free then. No
    /// block is free in both before. It takes no memory.
    pub fn take_in(&mut self, other: &mut Pool)
        requires same { SameBlocks self.old other.old }
        requires apart { (b : ℕ) → is_free_at other.old b ≡ true → is_free_at self.old b ≡ false }
        ensures same { SameBlocks self.old self.new }
        ensures free { (b : ℕ) → is_free_at self.new b
            ≡ (is_free_at self.old b || is_free_at other.old b) }
        ensures count { free_count self.new ≡ free_count self.old + free_count other.old }
        ensures other { SameBlocks other.old other.new }
        ensures none { (b : ℕ) → is_free_at other.new b ≡ false }
    {
        let words = self.count.div_ceil(64) as usize;
        move_bits(&mut self.words, &mut other.words, words);
        self.free += other.free;
        other.free = 0;
    }
}
