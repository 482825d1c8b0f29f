//! Blocks come back.
ghost use Rattle.std.specs.Prelude.{◌≡◌, ◌<◌, ◌/◌, ℕ, true, length};
ghost use Rattle.k_split.specs.pm_model.Cells.{cell, is_lent};
ghost use Rattle.write_jobs.specs.Loans.{AreApart, ComeBack};
ghost use Rattle.write_jobs.specs.Jobs.{loan_at};

use k_split::KSplit;
use pm_lines::Loan;

/// Takes blocks back that were lent, no two of one place. Their marks end.
pub fn settle_blocks(k: &mut KSplit, loans: Vec<Loan>)
    requires out { (n i : ℕ) → n < length loans.items → i / 512 ≡ (loan_at loans.items n).place
        → is_lent (cell k.old.cells i) ≡ true }
    requires apart { AreApart loans.items }
    ensures back { ComeBack loans.items k.old.cells k.new.cells }
    ensures same { k.new ≡ record k.old { cells = k.new.cells } }
{
    for loan in loans {
        k.settle(loan);
    }
}
