//! Filling a job: its words stored into its blocks and made durable.
ghost use Rattle.std.specs.Prelude.{◌≡◌, ◌≤◌, ◌*◌, true, false, length};
ghost use Rattle.pm_lines.specs.pm_model.Powers.{is_on, Steps};
ghost use Rattle.write_jobs.specs.Filling.{IsFilledBy};
ghost use Rattle.write_jobs.specs.Jobs.{blocks_of, AreSingle, HoldWords};

use crate::jobs::contents::StagedBytes;
use crate::jobs::jobs::{FilledJob, Job};
use pm_lines::{Loan, Power};

/// Whether all blocks of a job are durable, or the power went.
#[derive(Drop)]
pub enum Filled {
    Ready(FilledJob),
    PowerLost(Job),
}

// Makes the words of each block, stores them and makes them durable, block after block.
fn fill_blocks(loans: &mut Vec<Loan>, power: &mut Power, words: &StagedBytes)
    requires few { length loans.old.items ≤ 33 }
    requires words { length words.now ≡ 512 * length loans.old.items }
    requires single { AreSingle loans.old.items }
    ensures count { length loans.new.items ≡ length loans.old.items }
    ensures places { blocks_of loans.new.items ≡ blocks_of loans.old.items }
    ensures steps { Steps (577 * length loans.old.items) power.old power.new }
    ensures done { is_on power.new ≡ true → HoldWords loans.new.items words.now }
{
    for k in 0..loans.len() {
        loans[k].write_block(power, &words.block(k));
    }
}

impl Job {
    /// Makes the words of the job, stores them into its blocks, and makes them durable. It takes no memory. A job
    /// whose power went is filled no more.
    ///
    /// # Steps
    ///
    /// At most 577 a block, and so 2^15.
    pub fn fill(self, power: &mut Power) -> Filled
        requires { self.lost ≡ true → is_on power.old ≡ false }
        ensures steps { Steps (577 * self.draft.count) power.old power.new }
        ensures filled { IsFilledBy self power.new result }
    {
        if !power.on() {
            return Filled::PowerLost(self);
        }
        let mut job = self;
        fill_blocks(&mut job.loans, power, &job.words);
        if power.on() {
            return Filled::Ready(FilledJob {
                who: job.who,
                draft: job.draft,
                loans: job.loans,
                words: job.words,
            });
        }
        job.lost = true;
        Filled::PowerLost(job)
    }
}
