//! The entries of a log in the order in which they are carried out.
ghost use Rattle.std.specs.Prelude.{IfOk};
ghost use Rattle.fsync_relink.specs.log_laws.Orders.{AreInOrder};

use layout_model::Draft;
use std::alloc::AllocError;

/// The same entries by rising order.
///
/// # Errors
///
/// Out of memory alone.
pub fn in_order(entries: Vec<Draft>) -> Result<Vec<Draft>, AllocError>
    ensures { IfOk result (λ ds. AreInOrder entries.items ds.items) }
{
    let mut sorted = entries;
    sorted.sort_by_key(|draft| draft.order)?;
    Ok(sorted)
}
