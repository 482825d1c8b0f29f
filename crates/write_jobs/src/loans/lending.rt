//! Blocks go out.
ghost use Rattle.std.specs.Prelude.{◌≡◌, ◌+◌, ◌<◌, ◌^◌, false, IfOk, OnErr};
ghost use Rattle.write_jobs.specs.Loans.{AreLentBy, MayLendAll};

use crate::loans::settling::settle_blocks;
use k_split::KSplit;
use layout_model::Draft;
use pm_lines::Loan;
use std::alloc::{AllocError, Global};

/// Lends the blocks of an entry, in their order. Its staging file has them, no two places have one block,
/// and each of their words has one candidate. Nothing else changes.
///
/// # Errors
///
/// Out of memory, and then nothing is lent.
pub fn lend_blocks(alloc: Global, k: &mut KSplit, draft: &Draft) -> Result<Vec<Loan>, AllocError>
    requires on { k.old.lost ≡ false }
    requires fits { draft.now.staging_block + draft.now.count < 2 ^ 32 }
    requires may { MayLendAll k.old.volume k.old.cells draft.now }
    ensures lent { IfOk result (λ loans.
        AreLentBy k.old.volume draft.now k.old.cells k.new.cells loans.items) }
    ensures same { k.new ≡ record k.old { cells = k.new.cells } }
    ensures err { OnErr result (k.new ≡ k.old) }
{
    let mut loans = Vec::with_capacity(alloc, usize::from(draft.count))?;
    for n in 0..u32::from(draft.count) {
        match k.lend(alloc, draft.staging, draft.staging_block + n) {
            Ok(loan) => loans.push_reserved(loan),
            Err(error) => {
                settle_blocks(k, loans);
                return Err(error);
            }
        }
    }
    Ok(loans)
}
