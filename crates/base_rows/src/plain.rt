//! A memory as a plain list of cells, and a power as the steps that it has left.
use pm_lines::Choice;
use rand_core::{Rng, SeedableRng};
use rand_xoshiro::SplitMix64;
use std::alloc::{AllocError, Global};

// A word by its candidates, the older first; marked where the newer one is flushed.
#[derive(Clone, Copy)]
enum Word {
    One(u64),
    Two(u64, u64),
    Marked(u64, u64),
}

#[derive(Clone, Copy)]
pub(crate) enum Step {
    Store(u64),
    Flush,
    Fence,
    // Words that were out are put back. This takes no step.
    PutBack,
}

#[derive(Drop)]
pub(crate) struct Plain {
    words: Vec<Word>,
    // None where the power lasts.
    pub(crate) left: Option<u64>,
    // Whether a word that was looked at had other candidates.
    pub(crate) differs: bool,
}

impl Plain {
    // The words of two blocks of zeros, under a power that lasts.
    pub(crate) fn zeros(alloc: Global) -> Result<Plain, AllocError> {
        Ok(Plain {
            words: vec![in alloc; Word::One(0); 1024]?,
            left: None,
            differs: false,
        })
    }

    // Does a step to so many words from the first on.
    pub(crate) fn take(&mut self, step: Step, first: u64, count: u64) {
        let is_off = self.left == Some(0);
        if !matches!(step, Step::PutBack) {
            self.left = self.left.map(|steps| steps.saturating_sub(1));
            if is_off {
                return;
            }
        }
        for (i, word) in self.words.iter_mut().enumerate() {
            if first <= i as u64 && i as u64 - first < count {
                *word = match (step, *word) {
                    (Step::Store(value), Word::One(old)) => Word::Two(old, value),
                    (Step::Flush, Word::Two(old, new)) => Word::Marked(old, new),
                    (Step::Fence, Word::Marked(_, new)) => Word::One(new),
                    (Step::PutBack, Word::Marked(old, new)) => Word::Two(old, new),
                    (_, same) => same,
                };
            }
        }
    }

    // Notes whether a word has other candidates than were read of it.
    pub(crate) fn look(&mut self, word: u64, newest: u64, is_single: bool) {
        match self.words.get(word as usize) {
            Some(Word::One(value)) if is_single && *value == newest => {}
            Some(Word::Two(_, new) | Word::Marked(_, new)) if !is_single && *new == newest => {}
            _ => self.differs = true,
        }
    }

    // The bytes that a choice takes.
    pub(crate) fn image(&self, alloc: Global, choice: Choice) -> Result<Vec<u8>, AllocError> {
        let seed = if let Choice::Seed(seed) = choice {
            seed
        } else {
            0
        };
        let mut draws = SplitMix64::seed_from_u64(seed);
        let mut bytes = Vec::new(alloc);
        for (i, word) in self.words.iter().enumerate() {
            let value = match *word {
                Word::One(value) => value,
                Word::Two(old, new) | Word::Marked(old, new) => {
                    let is_newest = match choice {
                        Choice::Oldest => false,
                        Choice::Newest => true,
                        Choice::Even => i % 2 == 0,
                        Choice::Odd => i % 2 == 1,
                        Choice::Seed(_) => draws.next_u64() % 2 == 1,
                    };
                    if is_newest { new } else { old }
                }
            };
            bytes.extend_from_slice(&value.to_le_bytes())?;
        }
        Ok(bytes)
    }
}
