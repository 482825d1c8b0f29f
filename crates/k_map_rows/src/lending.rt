//! A block of a staging file that is lent, stored into and settled.
ghost use Rattle.std.specs.Prelude.{◌≡◌, OnOk};
ghost use Rattle.k_map_tests.specs.pm_model.Cells.{AllHome};
ghost use Rattle.k_map_tests.specs.Calls.{IsFresh};
ghost use Rattle.k_map_rows.specs.Lends.{IsOut};

use k_map_tests::{Reply, has_block};
use k_split::KSplit;
use pm_lines::{Loan, Power};
use std::alloc::Global;
use test_kit::RowError;

// Lends a block of a staging file that is there.
fn lent(k: &mut KSplit, alloc: Global, staging: u32, block: u32) -> Result<Option<Loan>, RowError>
    requires { IsFresh k.old }
    ensures { IsOut k.new.cells result }
{
    if !has_block(k, staging, block) {
        return Ok(None);
    }
    Ok(Some(k.lend(alloc, staging, block)?))
}

// Stores a word into a block that is lent, and makes it durable.
fn store(loan: &mut Loan, word: u32, value: u64) -> Reply
    ensures { loan.new.place ≡ loan.old.place }
{
    if word >= 512 || !loan.single(word) {
        return Reply::Unfit;
    }
    let mut power = Power::always();
    loan.store_word(&mut power, word, value);
    loan.flush(&mut power, word / 8);
    loan.fence(&mut power);
    Reply::Done
}

// Lends a block, stores a word into it and takes it back.
pub(crate) fn stored(
    k: &mut KSplit,
    alloc: Global,
    staging: u32,
    block: u32,
    word: u32,
    value: u64,
) -> Result<Reply, RowError>
    requires { IsFresh k.old }
    ensures { OnOk result (AllHome k.new.cells) }
{
    match lent(k, alloc, staging, block)? {
        None => Ok(Reply::Unfit),
        Some(mut loan) => {
            let reply = store(&mut loan, word, value);
            k.settle(loan);
            Ok(reply)
        }
    }
}
