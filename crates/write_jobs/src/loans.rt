//! The blocks of a log entry, lent by K-Split all together, and taken back.
//!
//! A logged write has its blocks in a staging file, one after the other. `lend_blocks` lends them all, or
//! none where memory runs out; `settle_blocks` takes loans back. The layer above may rely on this: blocks
//! that are lent go out of the device and nothing else does (`GoOut`), and the loans have their words
//! (`AreLoansOf`); loans that come back are put back with whatever they hold (`ComeBack`), which are the
//! blocks of the entry again (`ArePutBack`, by the law `PutsBack`).

ghost use Rattle.write_jobs.specs.Loans.{PutsBack};

mod lending;
mod settling;

pub use lending::lend_blocks;
pub use settling::settle_blocks;

/// Loans that come back are the blocks of their entry, put back.
pub fn loans_are_put_back()
    ensures { PutsBack }
{}

pub use crate::job_laws::{FilledJob, Job};
pub use k_split::KSplit;
