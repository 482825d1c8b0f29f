//! Lists of the blocks of extents.
ghost use Rattle.std.specs.Prelude.{◌≡◌, ◌<◌, ◌+◌, ◌^◌, ℕ, All, OnOk};
ghost use Rattle.k_relink.specs.extent_model.Counts.{one_if};
ghost use Rattle.k_relink.specs.extent_model.Extents.{is_within, IsExtent};
ghost use Rattle.k_plans.specs.volume_laws.Uses.{in_chain, in_map};

use extent_map::Extent;
use std::alloc::AllocError;

// Puts `count` blocks from `first` on behind a list.
fn push_run(blocks: &mut Vec<u32>, first: u32, count: u32) -> Result<(), AllocError>
    requires { first + count < 2 ^ 32 }
    ensures { OnOk result ((b : ℕ) →
        in_chain blocks.new.items b ≡ in_chain blocks.old.items b + one_if (is_within first count b)) }
{
    for block in first..first + count {
        blocks.push(block)?;
    }
    Ok(())
}

/// Puts the disk blocks of extents behind a list.
pub(crate) fn push_extents(blocks: &mut Vec<u32>, extents: &[Extent]) -> Result<(), AllocError>
    requires { All IsExtent extents.now }
    ensures { OnOk result ((b : ℕ) →
        in_chain blocks.new.items b ≡ in_chain blocks.old.items b + in_map extents.now b) }
{
    for extent in extents {
        push_run(blocks, extent.disk, extent.count)?;
    }
    Ok(())
}
