//! A job, and a filled one.
ghost use Rattle.std.specs.Prelude.{◌≡◌, ◌≤◌, false};
ghost use Rattle.write_jobs.specs.Jobs.{AreOfEntry, AreSingle, HoldWords};

use crate::jobs::contents::StagedBytes;
use layout_model::Draft;
use pm_lines::Loan;
use posix_types::Who;
use std::marker::Model;

/// A logged write that has begun: the blocks of its entry, lent, and what they are to hold.
#[derive(Debug, Drop)]
pub struct Job {
    pub(crate) who: Who,
    pub(crate) draft: Draft,
    pub(crate) loans: Vec<Loan>,
    pub(crate) words: StagedBytes,
    pub(crate) lost: bool,
}

impl Model for Job {
    ghost use Rattle.std.specs.Prelude.{◌≡◌, false};
    ghost use Rattle.write_jobs.specs.Jobs.{AreOfEntry, AreSingle, JobView};

    ghost Value = { JobView };

    ghost view = { λ job. record {
      who = job.who;
      draft = job.draft;
      loans = job.loans.items;
      words = job.words;
      lost = job.lost;
    } };

    ghost invariant = { λ job. AreOfEntry job.draft job.loans.items job.words
        × (job.lost ≡ false → AreSingle job.loans.items) };
}

/// A job whose blocks hold its words, durable. Only `Job::fill` makes one.
#[derive(Debug, Drop)]
pub struct FilledJob {
    pub(crate) who: Who,
    pub(crate) draft: Draft,
    pub(crate) loans: Vec<Loan>,
    pub(crate) words: StagedBytes,
}

impl Model for FilledJob {
    ghost use Rattle.write_jobs.specs.Jobs.{AreOfEntry, FilledView, HoldWords};

    ghost Value = { FilledView };

    ghost view = { λ job. record {
      who = job.who;
      draft = job.draft;
      loans = job.loans.items;
      words = job.words;
    } };

    ghost invariant = { λ job. AreOfEntry job.draft job.loans.items job.words
        × HoldWords job.loans.items job.words };
}

impl Job {
    /// The job of a caller: of the entry `draft`, whose blocks are lent, in their order, with the 512 words
    /// that each is to hold. Each word of the loans has one candidate. An entry has 33 blocks at most.
    pub fn of(who: Who, draft: Draft, loans: Vec<Loan>, words: StagedBytes) -> Job
        requires entry { AreOfEntry draft loans.items words }
        requires single { AreSingle loans.items }
        ensures { result ≡ record {
          who = who;
          draft = draft;
          loans = loans.items;
          words = words;
          lost = false;
        } }
    {
        Job {
            who,
            draft,
            loans,
            words,
            lost: false,
        }
    }

    /// The caller.
    pub fn who(&self) -> Who
        ensures { result ≡ self.now.who }
    {
        self.who
    }

    /// The entry that its log line is to hold.
    pub fn draft(&self) -> &Draft
        ensures draft { result.now ≡ self.now.draft }
        ensures entry { AreOfEntry self.now.draft self.now.loans self.now.words }
    {
        &self.draft
    }

    /// Its blocks, to be put back into the device.
    pub fn into_loans(self) -> Vec<Loan>
        ensures loans { result.items ≡ self.loans }
        ensures entry { AreOfEntry self.draft self.loans self.words }
    {
        self.loans
    }
}

impl FilledJob {
    /// The caller.
    pub fn who(&self) -> Who
        ensures { result ≡ self.now.who }
    {
        self.who
    }

    /// The entry that its log line is to hold.
    pub fn draft(&self) -> &Draft
        ensures draft { result.now ≡ self.now.draft }
        ensures entry { AreOfEntry self.now.draft self.now.loans self.now.words }
    {
        &self.draft
    }

    /// Its blocks, to be put back into the device.
    pub fn into_loans(self) -> Vec<Loan>
        ensures loans { result.items ≡ self.loans }
        ensures entry { AreOfEntry self.draft self.loans self.words }
        ensures holds { HoldWords self.loans self.words }
    {
        self.loans
    }
}
