//! The turns: steps on the device, and on parts of it that are out.
ghost use Rattle.std.specs.Prelude.{◌≡◌, ◌+◌, ◌<◌, ◌≤◌, ℕ, true, length};
ghost use Rattle.pm_lines.specs.pm_model.Cells.{cell, is_single, AllHome};

use crate::plain::{Plain, Step};
use pm_lines::{Choice, Line, Loan, Pm, Power};
use rand_core::{Rng, SeedableRng};
use rand_xoshiro::SplitMix64;
use std::alloc::{AllocError, Global};
use std::test::Fail;

// How many turns are made.
const TURNS: u32 = 200;

fn below(draws: &mut SplitMix64, n: u32) -> u32
    requires { 0 < n }
    ensures { result < n }
{
    draws.next_u32() % n
}

// Steps on a block that is lent.
fn loan_steps(loan: &mut Loan, power: &mut Power, plain: &mut Plain, draws: &mut SplitMix64)
    ensures { loan.new.place ≡ loan.old.place }
{
    let first = 512 * u64::from(loan.block());
    for _step in 0..40 {
        let kind = below(draws, 8);
        let word = below(draws, 32);
        let place = first + u64::from(word);
        plain.look(place, loan.read_word(word), loan.single(word));
        if kind == 0 {
            loan.fence(power);
            plain.take(Step::Fence, first, 512);
        } else if kind < 3 {
            loan.flush(power, word / 8);
            plain.take(Step::Flush, place / 8 * 8, 8);
        } else if loan.single(word) {
            let value = draws.next_u64();
            loan.store_word(power, word, value);
            plain.take(Step::Store(value), place, 1);
        }
    }
}

// Steps on a line that is out.
fn line_steps(line: &mut Line, power: &mut Power, plain: &mut Plain, draws: &mut SplitMix64)
    requires { line.old.place < 128 }
    ensures { line.new.place ≡ line.old.place }
{
    let first = 8 * line.place();
    for _step in 0..10 {
        let kind = below(draws, 6);
        let word = below(draws, 8);
        let place = first + u64::from(word);
        plain.look(place, line.read_word(word), line.single(word));
        if kind == 0 {
            line.fence(power);
            plain.take(Step::Fence, first, 8);
        } else if kind == 1 {
            line.flush(power);
            plain.take(Step::Flush, first, 8);
        } else if line.single(word) {
            let value = draws.next_u64();
            line.store_word(power, word, value);
            plain.take(Step::Store(value), place, 1);
        }
    }
}

// A device of two blocks and the list beside it.
#[derive(Drop)]
struct Both {
    pm: Pm,
    power: Power,
    plain: Plain,
    ghost size: { length pm ≡ 1024 },
    ghost home: { AllHome pm },
}

impl Both {
    // Whether words from the first on have one candidate each.
    fn all_single(&self, first: u64, count: u64) -> bool
        requires { first + count ≤ 1024 }
        ensures { result ≡ true → (i : ℕ) → first ≤ i → i < first + count
            → is_single (cell self.now.pm i) ≡ true }
    {
        for word in first..first + count {
            if !self.pm.single(word) {
                return false;
            }
        }
        true
    }

    fn fence(&mut self) {
        self.pm.fence(&mut self.power);
        self.plain.take(Step::Fence, 0, 1024);
    }

    fn flush(&mut self, line: u64)
        requires { line < 128 }
    {
        self.pm.flush(&mut self.power, line);
        self.plain.take(Step::Flush, 8 * line, 8);
    }

    // One step on the device, more often on its first lines.
    fn step(&mut self, draws: &mut SplitMix64) {
        let kind = below(draws, 8);
        let words = if below(draws, 2) == 0 { 32 } else { 1024 };
        let word = u64::from(below(draws, words));
        if kind == 0 {
            self.fence();
        } else if kind < 3 {
            self.flush(word / 8);
        } else if self.pm.single(word) {
            let value = draws.next_u64();
            self.pm.store_word(&mut self.power, word, value);
            self.plain.take(Step::Store(value), word, 1);
        }
    }

    // A block goes out, has steps of its own, and comes back.
    fn lend(&mut self, alloc: Global, draws: &mut SplitMix64) -> Result<(), AllocError> {
        let block = below(draws, 2);
        if self.all_single(512 * u64::from(block), 512) {
            let mut loan = self.pm.lend(alloc, block)?;
            loan_steps(&mut loan, &mut self.power, &mut self.plain, draws);
            self.pm.settle(loan);
            self.plain.take(Step::PutBack, 512 * u64::from(block), 512);
        }
        Ok(())
    }

    // A line goes out, has steps of its own, and comes back.
    fn take_line(&mut self, draws: &mut SplitMix64) {
        let place = u64::from(below(draws, 128));
        if self.all_single(8 * place, 8) {
            let mut line = self.pm.take_line(place);
            line_steps(&mut line, &mut self.power, &mut self.plain, draws);
            self.pm.put_line(line);
            self.plain.take(Step::PutBack, 8 * place, 8);
        }
    }

    // Whether the device has the words of the list, the power a step left, and the images the same
    // bytes.
    fn is_like(&mut self, alloc: Global, seed: u64) -> Result<bool, AllocError> {
        for word in 0..1024 {
            let newest = self.pm.read_word(word);
            self.plain.look(word, newest, self.pm.single(word));
        }
        for choice in [
            Choice::Oldest,
            Choice::Newest,
            Choice::Even,
            Choice::Odd,
            Choice::Seed(seed),
        ] {
            let bytes = self.pm.choose(alloc, choice)?;
            if bytes.as_slice() != self.plain.image(alloc, choice)?.as_slice() {
                return Ok(false);
            }
        }
        Ok(!self.plain.differs && self.power.on() == (self.plain.left != Some(0)))
    }

    // One turn under a power of its own. Answers whether the two are the same after it.
    fn turn(&mut self, alloc: Global, draws: &mut SplitMix64) -> Result<bool, AllocError> {
        let steps = u64::from(below(draws, 250));
        let lasts = below(draws, 3) == 0;
        self.power = if lasts {
            Power::always()
        } else {
            Power::after(steps)
        };
        self.plain.left = (!lasts).then_some(steps);
        for _step in 0..30 {
            self.step(draws);
            if !self.is_like(alloc, draws.next_u64())? {
                return Ok(false);
            }
        }
        if below(draws, 2) == 0 {
            for line in 0..128 {
                self.flush(line);
            }
            self.fence();
        }
        self.lend(alloc, draws)?;
        self.take_line(draws);
        self.is_like(alloc, draws.next_u64())
    }
}

// The first turn after which the two differ.
fn first_difference(alloc: Global) -> Result<Option<u32>, AllocError> {
    let mut draws = SplitMix64::seed_from_u64(20_261_129);
    let plain = Plain::zeros(alloc)?;
    let pm = Pm::from_image(alloc, &vec![in alloc; 0; 8192]?)?;
    let power = Power::always();
    let mut both = Both { pm, power, plain };
    for number in 0..TURNS {
        if !both.turn(alloc, &mut draws)? {
            return Ok(Some(number));
        }
    }
    Ok(None)
}

#[test]
fn two_hundred_turns_beside_a_list(rt: HostRuntime) -> Result<(), Fail> {
    assert_eq!(rt; first_difference(rt.alloc())?, None);
    Ok(())
}
