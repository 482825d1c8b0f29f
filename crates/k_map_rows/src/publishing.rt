//! Three runs are laid and published.
ghost use Rattle.std.specs.Prelude.{◌≡◌, [], ◌∷◌, ◌++◌, IfOk, OnOk};
ghost use Rattle.k_map_tests.specs.pm_model.Cells.{AllHome};
ghost use Rattle.k_map_tests.specs.Calls.{IsFresh};

use crate::asking::may_publish;
use file_overlay::{Overlay, Run};
use fsync_relink::publish;
use k_check::Commit;
use k_split::KSplit;
use pm_lines::Power;
use std::alloc::Global;
use test_kit::RowError;

// Three runs of a file, by rising order, and its length behind the last one.
#[derive(Clone, Copy)]
pub(crate) struct Three {
    pub(crate) ino: u32,
    pub(crate) size: u64,
    pub(crate) first: Run,
    pub(crate) second: Run,
    pub(crate) third: Run,
}

// File blocks 1 to 3 from staging file 1; 3 and 4 from staging file 2; 3 from staging file 1.
pub(crate) fn three_runs() -> Three {
    Three {
        ino: 5,
        size: 20000,
        first: run_of(1, 1, 0, 3, 1),
        second: run_of(3, 2, 0, 2, 2),
        third: run_of(3, 1, 3, 1, 3),
    }
}

// The file whose bytes no run has.
pub(crate) fn no_runs() -> Three {
    Three {
        ino: 6,
        size: 0,
        first: run_of(0, 1, 0, 0, 0),
        second: run_of(0, 1, 0, 0, 0),
        third: run_of(0, 1, 0, 0, 0),
    }
}

fn run_of(file_block: u32, staging: u32, staging_block: u32, count: u32, order: u64) -> Run {
    Run {
        file_block,
        staging,
        staging_block,
        count,
        order,
    }
}

// Lays a run whose ends are short.
fn lay(overlay: &mut Overlay, run: Run) -> Result<(), RowError>
    ensures { OnOk result (overlay.new.runs ≡ overlay.old.runs ++ run ∷ []) }
{
    if run.file_block > 4096 || run.staging_block > 4096 || run.count > 4096 {
        return Err(RowError::Misspelled);
    }
    overlay.reserve()?;
    overlay.lay(run);
    Ok(())
}

// An overlay of three runs.
fn laid(alloc: Global, three: &Three) -> Result<Overlay, RowError>
    ensures { IfOk result (λ overlay. overlay.runs
        ≡ three.now.first ∷ three.now.second ∷ three.now.third ∷ []) }
{
    let mut overlay = Overlay::new(alloc);
    lay(&mut overlay, three.first)?;
    lay(&mut overlay, three.second)?;
    lay(&mut overlay, three.third)?;
    Ok(overlay)
}

// Publishes three runs.
pub(crate) fn published(
    alloc: Global,
    k: &mut KSplit,
    three: &Three,
    power: &mut Power,
) -> Result<Commit, RowError>
    requires { IsFresh k.old }
    ensures { OnOk result (AllHome k.new.cells) }
{
    if !may_publish(k, three) {
        return Err(RowError::Misspelled);
    }
    let mut overlay = laid(alloc, three)?;
    Ok(publish(alloc, k, &mut overlay, three.ino, three.size, power)?)
}
