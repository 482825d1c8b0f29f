//! The tables: how they are made of what was read, and what they are asked for.
ghost use Rattle.std.specs.Prelude.{◌≡◌, ◌<◌, ◌↔◌, [], length, if◌then◌else◌, None, Some, IfOk, IfSome, IsSome, IsTrue};
ghost use Rattle.layout_model.specs.Names.{names_of};
ghost use Rattle.layout_model.specs.Places.{IsGeometry, data_blocks, first_data};
ghost use Rattle.k_reading.specs.block_pool.FreeSets.{free_list};
ghost use Rattle.k_tables.specs.k_split_model.Spaces.{is_free};
ghost use Rattle.k_tables.specs.image_model.Volume.{extents};
ghost use Rattle.k_plans.specs.Free.{AreKeptBack, free_blocks};
ghost use Rattle.k_plans.specs.PlansLaws.{FreeAreUnused, IsBehindStaging, IsWholeWhereRead};
ghost use Rattle.k_plans.specs.View.{node_at, tables_view};
ghost use Rattle.k_plans.specs.Whole.{IsWhole};

use crate::landings::Geometry;
use extent_map::ExtentMap;
use k_reading::{Blocks, Maps, Pool, free_blocks};
use k_tables::NameTable;
use layout_model::{Inode, Kind};
use std::alloc::{AllocError, Global};
use std::marker::Model;

/// The tables of a volume: its inodes, its names, and of each inode the blocks of its chain and its
/// map; with the blocks that are free, those that are set aside for the change that is planned or came
/// free in it, and those that came free and wait for a commit. Contracts see the volume, the blocks that
/// are set aside and those that wait.
#[derive(Debug, Drop)]
pub struct Tables {
    pub(crate) geometry: Geometry,
    pub(crate) base: u64,
    pub(crate) inodes: Vec<Inode>,
    pub(crate) names: NameTable,
    pub(crate) chains: Vec<Blocks>,
    pub(crate) maps: Vec<ExtentMap>,
    pub(crate) pool: Pool,
    // What is set aside: the blocks of a map that was given up, and those of a list.
    pub(crate) dropped: ExtentMap,
    pub(crate) aside: Vec<u32>,
    // The blocks that wait, as a pool in which they are the free ones.
    pub(crate) held: Pool,
}

impl Model for Tables {
    ghost use Rattle.std.specs.Prelude.{◌++◌};
    ghost use Rattle.k_reading.specs.block_pool.FreeSets.{free_list};
    ghost use Rattle.k_plans.specs.View.{TablesView, map_blocks, tables_view};
    ghost use Rattle.k_plans.specs.Free.{AreTables};

    ghost Value = { TablesView };

    ghost view = { λ t. tables_view t.geometry t.base t.inodes.items t.names
        t.chains.items t.maps.items (map_blocks t.dropped ++ t.aside.items) (free_list t.held) };

    ghost invariant = { λ t. AreTables (tables_view t.geometry t.base t.inodes.items t.names
        t.chains.items t.maps.items (map_blocks t.dropped ++ t.aside.items) (free_list t.held))
        t.pool t.held };
}

// The inode, where one is in use there.
fn used_inode(inode: Inode) -> Option<Inode>
    ensures { result ≡ (if is_free inode.kind then None else Some inode) }
{
    match inode.kind {
        Kind::Free => None,
        Kind::Directory | Kind::File | Kind::Staging => Some(inode),
    }
}

// A pool of the data blocks in which none is free.
fn none_held(alloc: Global, geometry: &Geometry) -> Result<Pool, AllocError>
    requires { IsGeometry geometry.now }
    ensures first { IfOk result (λ held. held.first ≡ first_data geometry.now) }
    ensures count { IfOk result (λ held. length held.marks ≡ data_blocks geometry.now) }
    ensures none { IfOk result (λ held. free_list held ≡ []) }
{
    Pool::none(alloc, geometry.first_data(), geometry.data_blocks())
}

impl Tables {
    /// The tables of a volume that was read: its numbers, its log base, its inodes and names, and
    /// of each inode its chain and its map. Nothing is set aside, and nothing waits for a commit.
    pub fn of(
        alloc: Global,
        geometry: Geometry,
        base: u64,
        inodes: Vec<Inode>,
        names: NameTable,
        maps: Maps,
    ) -> Result<Tables, AllocError>
        requires { IsWhole (tables_view geometry base inodes.items names
            maps.chains.items maps.maps.items [] []).volume }
        ensures { IfOk result (λ tables. tables
            ≡ tables_view geometry base inodes.items names maps.chains.items maps.maps.items
            [] []) }
    {
        let pool = free_blocks(alloc, &geometry, &maps.chains, &maps.maps)?;
        let held = none_held(alloc, &geometry)?;
        Ok(Tables {
            geometry,
            base,
            inodes,
            names,
            chains: maps.chains,
            maps: maps.maps,
            pool,
            dropped: ExtentMap::new(alloc),
            aside: Vec::new(alloc),
            held,
        })
    }

    /// The numbers of the image. The volume keeps the rules, and blocks that are set aside or wait are
    /// unused.
    pub fn geometry(&self) -> &Geometry
        ensures numbers { result.now ≡ self.now.volume.geometry }
        ensures whole { IsWhole self.now.volume }
        ensures back { AreKeptBack self.now }
    {
        &self.geometry
    }

    /// The log base: the sequence number of the log's slot 0.
    pub fn base(&self) -> u64
        ensures { result ≡ self.now.volume.base }
    {
        self.base
    }

    /// The inodes, line by line.
    pub fn inodes(&self) -> &[Inode]
        ensures { result.now ≡ self.now.volume.inodes }
    {
        &self.inodes
    }

    /// The names, line by line.
    pub fn names(&self) -> &NameTable
        ensures { result.now ≡ self.now.volume.names }
    {
        &self.names
    }

    /// The inode of this number; None exactly where its line is free, or past the last line.
    pub fn node(&self, ino: u32) -> Option<Inode>
        ensures { result ≡ node_at self.now.volume ino }
    {
        let place = ino as usize;
        if place >= self.inodes.len() {
            return None;
        }
        used_inode(self.inodes[place])
    }

    /// Whether an inode has a name. The root has none.
    pub fn named(&self, ino: u32) -> bool
        ensures { IsTrue result ↔ (0 < names_of self.now.volume.names ino) }
    {
        ino != 0 && self.names.below(ino, 0)
    }

    /// The maps, inode by inode.
    pub fn maps(&self) -> &[ExtentMap]
        ensures { result.now ≡ self.now.volume.maps }
    {
        &self.maps
    }

    /// The map of the inode of this number; None exactly past the last line.
    pub fn map(&self, ino: u32) -> Option<&ExtentMap>
        ensures some { IsSome result ↔ (ino < length self.now.volume.inodes) }
        ensures map { IfSome result (λ map. map.now ≡ extents self.now.volume ino) }
    {
        let place = ino as usize;
        if place >= self.maps.len() {
            return None;
        }
        Some(&self.maps[place])
    }

    /// How many data blocks may be taken: those that nothing names, less those that are set aside and
    /// those that wait for a commit.
    pub fn free_blocks(&self) -> u32
        ensures { result ≡ free_blocks self.now }
    {
        self.pool.free()
    }
}

/// A volume that is read from words, and keeps the rules, is one that tables may have; and where
/// nothing is set aside and nothing waits, all blocks that nothing names are free.
pub fn tables_begin_with_what_is_read()
    ensures whole { IsWholeWhereRead }
    ensures free { FreeAreUnused }
{}

/// A new node takes none of the inodes 0 to 4, which are never free.
pub fn nodes_are_made_behind_the_staging_files()
    ensures { IsBehindStaging }
{}
