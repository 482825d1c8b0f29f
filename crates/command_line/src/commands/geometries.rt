//! The numbers of an image, from words.
ghost use Rattle.std.specs.Prelude.{◌≡◌};
ghost use Rattle.command_line.specs.Command.{geometry_with, geometry_spelled};

use image_layout::Geometry;
use script_text::read_number;

/// The geometry with these numbers, where they are in their ranges.
fn geometry_with(blocks: u64, log: u64, inodes: u64, names: u64) -> Option<Geometry>
    ensures { result ≡ geometry_with blocks log inodes names }
{
    let blocks = u32::try_from(blocks).ok()?;
    let log = u32::try_from(log).ok()?;
    let inodes = u32::try_from(inodes).ok()?;
    let names = u32::try_from(names).ok()?;
    Geometry::checked(blocks, log, inodes, names)
}

/// The geometry that four words spell.
#[tactic(auto, unfolding(crate::specs::Command::geometry_spelled))]
pub(crate) fn read_geometry(blocks: &str, log: &str, inodes: &str, names: &str) -> Option<Geometry>
    ensures { result ≡ geometry_spelled blocks.now log.now inodes.now names.now }
{
    let blocks = read_number(blocks.as_bytes())?;
    let log = read_number(log.as_bytes())?;
    let inodes = read_number(inodes.as_bytes())?;
    let names = read_number(names.as_bytes())?;
    geometry_with(blocks, log, inodes, names)
}
