//! The chains and the maps of a device.
ghost use Rattle.std.specs.Prelude.{◌≡◌, ◌*◌, ℕ, List, [], length, IfOk};
ghost use Rattle.k_inodes.specs.image_layout.pm_model.Cells.{AllSingle};
ghost use Rattle.k_inodes.specs.image_layout.pm_model.Images.{words_of};
ghost use Rattle.k_inodes.specs.image_layout.layout_model.Places.{Geometry};
ghost use Rattle.map_chain.specs.image_model.Reading.{Reads};
ghost use Rattle.map_chain.specs.image_model.Volume.{Volume};
ghost use Rattle.k_reading.specs.Tables.{IsFound, AreFound};

use extent_map::ExtentMap;
use k_inodes::Inode;
use map_chain::{Chain, read};
use pm_lines::Pm;
use std::alloc::{AllocError, Global};
use std::marker::Model;

/// The blocks of a chain in their order, counted from the first block of the device.
#[derive(Debug, Drop)]
pub struct Blocks {
    pub blocks: Vec<u32>,
}

impl Model for Blocks {
    ghost use Rattle.std.specs.Prelude.{ℕ, List};

    ghost Value = { List ℕ };

    ghost view = { λ b. b.blocks.items };
}

/// Of each inode the blocks of its chain, and its map.
#[derive(Debug, Drop)]
pub struct Maps {
    pub chains: Vec<Blocks>,
    pub maps: Vec<ExtentMap>,
}

// The chain of an inode, where one stands in the device.
fn read_map(alloc: Global, pm: &Pm, inode: &Inode) -> Result<Chain, AllocError>
    requires single { AllSingle pm.now }
    ensures { IfOk result (λ chain.
        IsFound (words_of pm.now) (length pm.now) inode.now chain.blocks.items chain.map) }
{
    match read(alloc, pm, inode.root, inode.extents)? {
        Some(chain) => Ok(chain),
        None => Ok(Chain {
            map: ExtentMap::new(alloc),
            blocks: Vec::new(alloc),
        }),
    }
}

/// The chains and the maps of these inodes: of each inode the one chain that stands in the device,
/// and nothing where none does. Where the words read as a volume with these inodes, they are those
/// of that volume.
pub fn read_maps(alloc: Global, pm: &Pm, inodes: &[Inode]) -> Result<Maps, AllocError>
    requires single { AllSingle pm.now }
    ensures found { IfOk result (λ found. AreFound (words_of pm.now) (length pm.now) inodes.now
        (length inodes.now) found.chains.items found.maps.items) }
    ensures reads { IfOk result (λ found. (g : Geometry) (v : Volume)
        → length pm.now ≡ 512 * g.blocks → Reads g (words_of pm.now) v → v.inodes ≡ inodes.now
        → (found.chains.items ≡ v.chains) × (found.maps.items ≡ v.maps)) }
{
    let mut chains = Vec::with_capacity(alloc, inodes.len())?;
    let mut maps = Vec::with_capacity(alloc, inodes.len())?;
    for inode in inodes {
        let found = read_map(alloc, pm, inode)?;
        chains.push(Blocks {
            blocks: found.blocks,
        })?;
        maps.push(found.map)?;
    }
    Ok(Maps { chains, maps })
}
