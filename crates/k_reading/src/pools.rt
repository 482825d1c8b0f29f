//! The data blocks that nothing names.
ghost use Rattle.std.specs.Prelude.{◌≡◌, ◌++◌, ℕ, IfOk, OnOk, flat_map, map};
ghost use Rattle.block_pool.specs.FreeSets.{is_free_at};
ghost use Rattle.map_chain.specs.image_model.Volume.{Volume};
ghost use Rattle.k_reading.specs.Pools.{one_block, used_extents, AreInData, IsOfTables, IsPoolOf};
ghost use Rattle.image_laws.specs.volume_laws.Uses.{is_unused};

use crate::maps::Blocks;
use block_pool::Pool;
use extent_map::{Extent, ExtentMap};
use k_inodes::Geometry;
use std::alloc::{AllocError, Global};

// The extent of one block.
fn one_block(block: u32) -> Extent
    ensures { result ≡ one_block block }
{
    Extent {
        file: 0,
        disk: block,
        count: 1,
    }
}

// Puts the blocks behind the extents, one extent a block.
fn push_blocks(used: &mut Vec<Extent>, blocks: &[u32]) -> Result<(), AllocError>
    ensures { OnOk result (used.new.items ≡ used.old.items ++ map one_block blocks.now) }
{
    for block in blocks {
        used.push(one_block(*block))?;
    }
    Ok(())
}

// The blocks of the chains, one extent a block.
fn chain_extents(alloc: Global, chains: &[Blocks]) -> Result<Vec<Extent>, AllocError>
    ensures { IfOk result (λ used.
        used.items ≡ flat_map (λ blocks. map one_block blocks) chains.now) }
{
    let mut used = Vec::new(alloc);
    for chain in chains {
        push_blocks(&mut used, &chain.blocks)?;
    }
    Ok(used)
}

// All extents that the chains and the maps use.
fn used_extents(
    alloc: Global,
    chains: &[Blocks],
    maps: &[ExtentMap],
) -> Result<Vec<Extent>, AllocError>
    ensures { IfOk result (λ used. used.items ≡ used_extents chains.now maps.now) }
{
    let mut used = chain_extents(alloc, chains)?;
    for map in maps {
        used.extend_from_slice(map.extents())?;
    }
    Ok(used)
}

// The pool of the data blocks, of which those are free that these chains and maps do not use.
fn pool_without(
    alloc: Global,
    geometry: &Geometry,
    chains: &[Blocks],
    maps: &[ExtentMap],
) -> Result<Pool, AllocError>
    requires in_data { AreInData geometry.now chains.now maps.now }
    ensures { IfOk result (λ pool. IsPoolOf geometry.now chains.now maps.now pool) }
{
    let used = used_extents(alloc, chains, maps)?;
    let pool = Pool::new(alloc, geometry.first_data(), geometry.data_blocks(), &used)?;
    Ok(pool)
}

/// The pool of the data blocks, of which those are free that no chain and no extent of a map names.
/// Chains and maps lie in data blocks. In a volume with these chains and maps the free blocks are
/// those that have no owner.
pub fn free_blocks(
    alloc: Global,
    geometry: &Geometry,
    chains: &[Blocks],
    maps: &[ExtentMap],
) -> Result<Pool, AllocError>
    requires in_data { AreInData geometry.now chains.now maps.now }
    ensures pool { IfOk result (λ pool. IsPoolOf geometry.now chains.now maps.now pool) }
    ensures volume { IfOk result (λ pool. (v : Volume)
        → IsOfTables geometry.now chains.now maps.now v → (b : ℕ) → is_free_at pool b ≡ is_unused v b) }
{
    let pool = pool_without(alloc, geometry, chains, maps)?;
    Ok(pool)
}
