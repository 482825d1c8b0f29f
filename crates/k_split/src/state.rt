//! The state of K-Split, and what it is asked for without a look at a path.
ghost use Rattle.std.specs.Prelude.{◌≡◌, ◌<◌, ◌↔◌, [], true, false, length, IsTrue};
ghost use Rattle.layout_model.specs.Names.{names_of};
ghost use Rattle.k_map_plans.specs.k_plans.View.{node_at};
ghost use Rattle.k_split.specs.Gathers.{IsSettledAt};
ghost use Rattle.k_split.specs.Order.{IsInOrder, IsSteady};

use k_group_commit::standing_block;
use k_map_plans::{Batch, Geometry, Tables};
use layout_model::Inode;
use pm_lines::Pm;
use std::marker::Model;

/// The metadata of a file system on its device: names, inodes and maps. Contracts see a `View`.
#[derive(Debug, Drop)]
pub struct KSplit {
    pub(crate) pm: Pm,
    pub(crate) tables: Tables,
    // The lines of the change that is planned; none between changes.
    pub(crate) batch: Batch,
    // The lines of the open batch.
    pub(crate) group: Batch,
    pub(crate) batched: bool,
    pub(crate) lost: bool,
    // Between two calls no block is set aside for a change.
    ghost none_aside: { tables.aside ≡ [] },
    // The volume of the device rests on no word that is lent, also where the power went.
    ghost steady: { batched ≡ true → IsSteady tables.volume.geometry pm },
}

impl Model for KSplit {
    ghost use Rattle.std.specs.Prelude.{◌≡◌, false};
    ghost use Rattle.k_tables.specs.k_split_model.View.{View};
    ghost use Rattle.k_split.specs.Order.{view_of, IsReady};

    ghost Value = { View };

    ghost view = { λ k. view_of k.tables k.group k.pm k.batched k.lost };

    ghost invariant = { λ k. k.lost ≡ false
        → IsReady k.tables k.group k.batch k.pm k.batched };
}

// Whether both are the same block, or none.
fn is_same(one: Option<u32>, other: Option<u32>) -> bool
    ensures { IsTrue result ↔ (one ≡ other) }
{
    one == other
}

impl KSplit {
    /// Whether the power went in a change. Where it did not, all is in order.
    pub fn is_lost(&self) -> bool
        ensures lost { result ≡ self.now.lost }
        ensures order { self.now.lost ≡ false → IsInOrder self.now }
    {
        self.lost
    }

    /// The numbers of the image.
    pub fn geometry(&self) -> &Geometry
        ensures { result.now ≡ self.now.volume.geometry }
    {
        self.tables.geometry()
    }

    /// The log base: the sequence number of the log's slot 0.
    pub fn log_base(&self) -> u64
        ensures { result ≡ self.now.volume.base }
    {
        self.tables.base()
    }

    /// The inode of this number; None exactly where its line is free, or past the last line.
    pub fn node(&self, ino: u32) -> Option<Inode>
        ensures { result ≡ node_at self.now.volume ino }
    {
        self.tables.node(ino)
    }

    /// How many lines the open batch sets: none where changes do not gather.
    pub fn pending(&self) -> u32
        ensures { result ≡ length self.now.lines }
    {
        self.group.len()
    }

    /// Whether the committed map and the present one of an inode have the same disk block, or none, at
    /// this file block. It reads the committed map from the device, and takes no memory.
    pub fn settled(&self, ino: u32, block: u32) -> bool
        requires on { self.now.lost ≡ false }
        requires below { ino < length self.now.volume.inodes }
        ensures { IsTrue result ↔ IsSettledAt ino block self.now }
    {
        let present = match self.tables.map(ino) {
            Some(map) => map.lookup(block),
            None => unreachable!(),
        };
        is_same(
            present,
            standing_block(&self.pm, self.tables.geometry(), ino, block),
        )
    }

    /// The device.
    pub fn into_pm(self) -> Pm
        ensures { result ≡ self.cells }
    {
        self.pm
    }
}
