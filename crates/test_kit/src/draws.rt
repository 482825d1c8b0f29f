//! Numbers that are drawn from a seed.
ghost use Rattle.std.specs.Prelude.{◌<◌};

use rand_core::{Rng, SeedableRng};
use rand_xoshiro::SplitMix64;

/// Numbers that SplitMix64 draws from a seed.
#[derive(Drop)]
pub struct Draws {
    rng: SplitMix64,
}

impl Draws {
    /// The numbers of a seed.
    pub fn new(seed: u64) -> Draws {
        Draws {
            rng: SplitMix64::seed_from_u64(seed),
        }
    }

    /// A number below `n`, from 32 bits that are drawn.
    pub fn below(&mut self, n: u32) -> u32
        requires { 0 < n }
        ensures { result < n }
    {
        self.rng.next_u32() % n
    }

    /// A number of at most `last`, from 32 bits that are drawn.
    pub fn up_to(&mut self, last: u64) -> u64 {
        let drawn = u64::from(self.rng.next_u32());
        drawn.checked_rem(last.saturating_add(1)).unwrap_or(0)
    }

    /// A number below `n`, from 64 bits that are drawn; 0 where `n` is.
    pub fn wide_below(&mut self, n: u64) -> u64 {
        self.rng.next_u64().checked_rem(n).unwrap_or(0)
    }
}
