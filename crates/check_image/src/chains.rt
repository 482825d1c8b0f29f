// Rule 7: the chains and the maps. Their blocks are data blocks, which the journal does not change.
ghost use Rattle.std.specs.Prelude.{◌≡◌, ◌↔◌, ◌*◌, ℕ, length, true, All, IsTrue, IfOk, IfErr, IfSome, IfNone, OnOk};
ghost use Rattle.k_reading.specs.volume_laws.RuleLaws.{IsOfWords};
ghost use Rattle.k_journal.specs.layout_model.Journal.{journaled, IsSound};
ghost use Rattle.k_journal.specs.layout_model.Places.{is_data_block};
ghost use Rattle.k_reading.specs.image_model.Broken.{Holds, FailsFirst};
ghost use Rattle.k_reading.specs.image_model.Rules.{file_blocks_of, IsInData, HasChain};
ghost use Rattle.k_reading.specs.image_model.Volume.{Volume, volume, inode, chain, extents};
ghost use Rattle.check_image.specs.LineRules.{chains_rule};
ghost use Rattle.k_journal.specs.pm_model.Cells.{AllHome};
ghost use Rattle.k_journal.specs.pm_model.Images.{words_of};

use extent_map::Extent;
use k_journal::Geometry;
use k_reading::{Blocks, Chain, Inode, Kind, Maps, read};
use pm_lines::Pm;
use std::alloc::{AllocError, Global};

// File blocks of a file of this kind are below it.
fn file_blocks_of(kind: Kind) -> u32
    ensures { result ≡ file_blocks_of kind }
{
    match kind {
        Kind::Free | Kind::Directory | Kind::File => 4096,
        Kind::Staging => 64,
    }
}

// Whether the blocks are data blocks.
fn are_data_blocks(geometry: &Geometry, blocks: &[u32]) -> bool
    ensures { IsTrue result ↔ All (λ b. is_data_block geometry.now b ≡ true) blocks.now }
{
    let first = geometry.first_data();
    for block in blocks {
        if *block < first || *block >= geometry.blocks {
            return false;
        }
    }
    true
}

// Whether the extent is one of data blocks, with file blocks below `limit`.
fn is_in_data(geometry: &Geometry, limit: u32, extent: &Extent) -> bool
    ensures { IsTrue result ↔ IsInData geometry.now limit extent.now }
{
    let count = u64::from(extent.count);
    u64::from(extent.file) + count <= u64::from(limit)
        && geometry.first_data() <= extent.disk
        && u64::from(extent.disk) + count <= u64::from(geometry.blocks)
}

// Whether all extents are.
fn are_in_data(geometry: &Geometry, limit: u32, extents: &[Extent]) -> bool
    ensures { IsTrue result ↔ All (IsInData geometry.now limit) extents.now }
{
    for extent in extents {
        if !is_in_data(geometry, limit, extent) {
            return false;
        }
    }
    true
}

// Rule 7 at one inode: its chain and its map, where they are good ones.
fn good_chain(
    alloc: Global,
    pm: &Pm,
    geometry: &Geometry,
    node: &Inode,
) -> Result<Option<Chain>, AllocError>
    requires size { length pm.now ≡ 512 * geometry.now.blocks }
    requires home { AllHome pm.now }
    requires sound { IsSound geometry.now (words_of pm.now) }
    ensures good { IfOk result (λ found. IfSome found (λ good. (v : Volume) (ino : ℕ)
        → v.geometry ≡ geometry.now → IsOfWords v (journaled (words_of pm.now)) ino
        → inode v ino ≡ node.now → (chain v ino ≡ good.blocks.items)
        × (extents v ino ≡ good.map) × HasChain v (journaled (words_of pm.now)) ino)) }
    ensures bad { IfOk result (λ found. IfNone found ((v : Volume) (ino : ℕ)
        → v.geometry ≡ geometry.now → IsOfWords v (journaled (words_of pm.now)) ino
        → inode v ino ≡ node.now → ¬ HasChain v (journaled (words_of pm.now)) ino)) }
{
    let Some(chain) = read(alloc, pm, node.root, node.extents)? else {
        return Ok(None);
    };
    let limit = file_blocks_of(node.kind);
    if are_data_blocks(geometry, &chain.blocks)
        && are_in_data(geometry, limit, chain.map.extents())
    {
        Ok(Some(chain))
    } else {
        Ok(None)
    }
}

/// Rule 7: the chains and the maps, inode by inode, or the first inode that has no good one. The inodes are those of the view.
pub(crate) fn read_chains(
    alloc: Global,
    pm: &Pm,
    geometry: &Geometry,
    inodes: &[Inode],
) -> Result<Result<Maps, usize>, AllocError>
    requires size { length pm.now ≡ 512 * geometry.now.blocks }
    requires home { AllHome pm.now }
    requires sound { IsSound geometry.now (words_of pm.now) }
    requires inodes { inodes.now ≡ (volume geometry.now (journaled (words_of pm.now))).inodes }
    ensures chains { IfOk result (λ read. IfOk read (λ found.
        found.chains.items ≡ (volume geometry.now (journaled (words_of pm.now))).chains)) }
    ensures maps { IfOk result (λ read. IfOk read (λ found.
        found.maps.items ≡ (volume geometry.now (journaled (words_of pm.now))).maps)) }
    ensures ok { IfOk result (λ read. OnOk read (let j = journaled (words_of pm.now) in
        Holds (chains_rule geometry.now (volume geometry.now j) j))) }
    ensures bad { IfOk result (λ read. IfErr read (let j = journaled (words_of pm.now) in
        FailsFirst (chains_rule geometry.now (volume geometry.now j) j))) }
{
    let mut chains = Vec::with_capacity(alloc, inodes.len())?;
    let mut maps = Vec::with_capacity(alloc, inodes.len())?;
    for (ino, inode) in inodes.iter().enumerate() {
        match good_chain(alloc, pm, geometry, inode)? {
            Some(found) => {
                chains.push(Blocks {
                    blocks: found.blocks,
                })?;
                maps.push(found.map)?;
            }
            None => return Ok(Err(ino)),
        }
    }
    Ok(Ok(Maps { chains, maps }))
}
