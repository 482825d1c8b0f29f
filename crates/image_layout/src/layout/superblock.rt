//! The superblock as 64 bytes, and back.
ghost use Rattle.std.specs.Prelude.{◌≡◌, ◌↔◌, true, false, IfOk, IsOk, IsErrOf};
ghost use Rattle.layout_model.specs.Places.{Geometry, IsGeometry};
ghost use Rattle.layout_model.specs.SuperLaws.{IsSuperblockOf};
ghost use Rattle.layout_model.specs.Superblock.{superblock, geometry_at, has_magic, has_version, has_numbers};

use crate::fields::{put_u32, u32_at};
use crate::layout::geometry::{Geometry, VERSION};
use thiserror::Error;

// The first eight bytes of a superblock.
const MAGIC: &[u8; 8] = b"SPLITFS1";

/// Why a line is no superblock: the first of these that holds.
#[derive(Clone, Copy, Debug, PartialEq, Eq, Error)]
pub enum SuperFault {
    /// It does not begin with the eight bytes of every superblock.
    #[error("the first line is no superblock")]
    Magic,
    /// Its version is not 1.
    #[error("the version of the image is not 1")]
    Version,
    /// A number is out of its range, fewer than 32 data blocks are left, or a byte of no field is
    /// not 0.
    #[error("the numbers of the image are not in range")]
    Numbers,
}

impl Geometry {
    /// The line that stands for the geometry, line 0 of its images.
    pub fn superblock(&self) -> [u8; 64]
        ensures { result ≡ superblock self.now }
    {
        let mut line = [0; 64];
        line[..8].copy_from_slice(MAGIC);
        put_u32(&mut line, 8, self.version);
        put_u32(&mut line, 12, self.blocks);
        put_u32(&mut line, 16, self.log);
        put_u32(&mut line, 20, self.inodes);
        put_u32(&mut line, 24, self.names);
        line
    }
}

/// The geometry whose superblock the line is, or the first fault of the line.
pub fn read_superblock(bytes: &[u8; 64]) -> Result<Geometry, SuperFault>
    ensures ok { IsOk result ↔ (has_magic bytes.now ≡ true) × (has_version bytes.now ≡ true)
        × (has_numbers bytes.now ≡ true) }
    ensures geometry { IfOk result (λ g. g ≡ geometry_at bytes.now) }
    ensures magic { IsErrOf result SuperFault.Magic ↔ (has_magic bytes.now ≡ false) }
    ensures version { IsErrOf result SuperFault.Version ↔ (has_magic bytes.now ≡ true)
        × (has_version bytes.now ≡ false) }
    ensures numbers { IsErrOf result SuperFault.Numbers ↔ (has_magic bytes.now ≡ true)
        × (has_version bytes.now ≡ true) × (has_numbers bytes.now ≡ false) }
{
    if &bytes[..8] != MAGIC.as_slice() {
        return Err(SuperFault::Magic);
    }
    if u32_at(bytes, 8) != VERSION {
        return Err(SuperFault::Version);
    }
    let checked = Geometry::checked(
        u32_at(bytes, 12),
        u32_at(bytes, 16),
        u32_at(bytes, 20),
        u32_at(bytes, 24),
    );
    match checked {
        Some(geometry) if geometry.superblock() == *bytes => Ok(geometry),
        _ => Err(SuperFault::Numbers),
    }
}

/// What `superblock` writes for a geometry is read as that geometry, by the clauses of
/// `read_superblock`.
pub fn superblock_is_read_back()
    ensures { (g : Geometry) → IsGeometry g → IsSuperblockOf g (superblock g) }
{}
