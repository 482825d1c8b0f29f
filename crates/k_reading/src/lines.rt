//! The log base, the inodes and the names of a device.
ghost use Rattle.std.specs.Prelude.{◌≡◌, ◌*◌, ◌<◌, length, IfOk};
ghost use Rattle.k_inodes.specs.image_layout.pm_model.Cells.{AllSingle};
ghost use Rattle.k_inodes.specs.image_layout.pm_model.Images.{words_of};
ghost use Rattle.k_inodes.specs.image_layout.layout_model.Places.{base_word};
ghost use Rattle.k_inodes.specs.layout_model.Tables.{IsKeyed};
ghost use Rattle.map_chain.specs.image_model.Volume.{inode_or_free, row_of, name_at, volume};

use k_inodes::{Geometry, Inode, Kind, decode_inode};
use k_names::{Decoded, NameLine, NameTable, decode_name};
use pm_lines::Pm;
use std::alloc::{AllocError, Global};

// An inode that nothing is in.
const FREE: Inode = Inode {
    kind: Kind::Free,
    generation: 0,
    size: 0,
    applied: 0,
    root: 0,
    extents: 0,
};

/// The log base: the sequence number of the log's slot 0.
pub fn read_base(pm: &Pm, geometry: &Geometry) -> u64
    requires size { length pm.now ≡ 512 * geometry.now.blocks }
    requires single { AllSingle pm.now }
    ensures { result ≡ words_of pm.now base_word }
{
    prove!(geometry.blocks >= 64);
    pm.read_word(8 * geometry.state_line())
}

// What stands in an inode line, a free inode where it is none.
fn read_inode(pm: &Pm, geometry: &Geometry, ino: u32) -> Inode
    requires size { length pm.now ≡ 512 * geometry.now.blocks }
    requires single { AllSingle pm.now }
    requires in_image { ino < geometry.now.inodes }
    ensures { result ≡ inode_or_free (words_of pm.now) ino }
{
    prove!(geometry.blocks >= 64);
    match decode_inode(&pm.read_line(geometry.inode_line(ino))) {
        Some(inode) => inode,
        None => FREE,
    }
}

/// The inodes, line by line: those of the volume of the device's words. A line that is no inode
/// line gives a free inode.
#[tactic(auto, unfolding(image_model::specs::Volume::volume))]
pub fn read_inodes(alloc: Global, pm: &Pm, geometry: &Geometry) -> Result<Vec<Inode>, AllocError>
    requires size { length pm.now ≡ 512 * geometry.now.blocks }
    requires single { AllSingle pm.now }
    ensures { IfOk result (λ inodes.
        inodes.items ≡ (volume geometry.now (words_of pm.now)).inodes) }
{
    let mut inodes = Vec::with_capacity(alloc, geometry.inodes as usize)?;
    for ino in 0..geometry.inodes {
        inodes.push(read_inode(pm, geometry, ino))?;
    }
    Ok(inodes)
}

// The name of a name line, where it is one.
fn read_name(
    alloc: Global,
    pm: &Pm,
    geometry: &Geometry,
    line: u32,
) -> Result<Option<NameLine>, AllocError>
    requires size { length pm.now ≡ 512 * geometry.now.blocks }
    requires single { AllSingle pm.now }
    requires in_image { line < geometry.now.names }
    ensures { IfOk result (λ row. row ≡ row_of (name_at geometry.now (words_of pm.now) line)) }
{
    prove!(geometry.blocks >= 64);
    match decode_name(alloc, &pm.read_line(geometry.name_line(line)))? {
        Decoded::Line(name) => Ok(Some(name)),
        Decoded::Free | Decoded::Bad => Ok(None),
    }
}

/// The names, line by line: those of the volume of the device's words, in which no two lines have
/// the same parent and name. A line that is no name line is free.
pub fn read_names(alloc: Global, pm: &Pm, geometry: &Geometry) -> Result<NameTable, AllocError>
    requires size { length pm.now ≡ 512 * geometry.now.blocks }
    requires single { AllSingle pm.now }
    requires keyed { IsKeyed (volume geometry.now (words_of pm.now)).names }
    ensures { IfOk result (λ names. names ≡ (volume geometry.now (words_of pm.now)).names) }
{
    let mut names = NameTable::new(alloc, geometry.names)?;
    for line in 0..geometry.names {
        if let Some(name) = read_name(alloc, pm, geometry, line)? {
            names.set(line, name)?;
        }
    }
    Ok(names)
}
