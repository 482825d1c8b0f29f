//! The plan by which the entries that a file has applied count anew.
//!
//! An inode line says up to which order the entries of its file are applied. Once no line of the log
//! is an entry any longer, that number may go back to 0, so that orders never run out. The plan is
//! one line in an empty `Batch`; the inode keeps its chain, its map and all other fields.
//!
//! The layer above may rely on this: the answer is one clause by cases (`IsResetPlan`), and for want
//! of memory tables and batch are as before. Where no slot of the log has a valid entry, the content
//! is the same before and after (the law `reset-content`).

ghost use Rattle.std.specs.Prelude.{◌≡◌, []};
ghost use Rattle.k_map_plans.specs.Going.{HasOwnMap};
ghost use Rattle.k_map_plans.specs.Plans.{IsLiveFile};
ghost use Rattle.k_map_plans.specs.Resets.{IsResetPlan};

use crate::map_plans::keep_map;
pub use crate::map_plans::{Batch, Tables};
use layout_model::Inode;
use std::alloc::{AllocError, Global};

/// Plans that a file has applied no entry: its `applied` becomes 0, and nothing else changes. The
/// inode's line has the root of its chain and the number of extents of its map. An error leaves
/// tables and batch as they were.
pub fn plan_reset(
    alloc: Global,
    tables: &mut Tables,
    batch: &mut Batch,
    ino: u32,
) -> Result<(), AllocError>
    requires empty { batch.old ≡ [] }
    requires idle { tables.old.aside ≡ [] }
    requires file { IsLiveFile ino tables.old.volume }
    requires own { HasOwnMap tables.old.volume ino }
    ensures { IsResetPlan ino tables.old tables.new batch.new result }
{
    let line = Inode {
        applied: 0,
        ..tables.inodes()[ino as usize]
    };
    keep_map(alloc, tables, batch, ino, &line)
}

pub use crate::map_plans::{
    Commit, Geometry, Kind, NewMap, PlanFault, Recovered, fresh_image, land, land_maps, may_fill,
    plan_fill, plan_give_up, plan_move, plan_preallocate, plan_size, read_base, read_inodes,
    read_maps, read_names, recover,
};
