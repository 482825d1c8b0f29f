//! The bytes of the fresh image.
ghost use Rattle.std.specs.Prelude.{◌≡◌, ◌+◌, ◌*◌, ◌≤◌, ℕ, length, IfOk};
ghost use Rattle.k_inodes.specs.image_layout.pm_model.Words.{word_at, with_line};
ghost use Rattle.k_inodes.specs.image_layout.layout_model.Places.{IsGeometry};
ghost use Rattle.k_inodes.specs.layout_model.Fresh.{empty_inode, state_bytes, blank, staging_files, fresh};

use k_inodes::{Geometry, Inode, Kind, encode_inode};
use std::alloc::{AllocError, Global};

// So many blocks of zeros, 256 bytes at a time.
fn zeros(alloc: Global, blocks: u32) -> Result<Vec<u8>, AllocError>
    requires { blocks ≤ 16384 }
    ensures size { IfOk result (λ bytes. length bytes.items ≡ 4096 * blocks) }
    ensures words { IfOk result (λ bytes. word_at bytes.items ≡ blank) }
{
    let mut bytes = Vec::with_capacity(alloc, 4096 * blocks as usize)?;
    for part in 0..16 * blocks {
        bytes.extend_from_slice(&[0; 256])?;
    }
    Ok(bytes)
}

// Sets a line.
fn put_line(bytes: &mut [u8], line: u64, content: &[u8; 64])
    requires { 64 * line + 64 ≤ length bytes.old }
    ensures { word_at bytes.new ≡ with_line line content.now (word_at bytes.old) }
{
    let at = 64 * line as usize;
    bytes[at..at + 64].copy_from_slice(content);
}

// The line of a log base.
fn state_bytes(base: u64) -> [u8; 64]
    ensures { result ≡ state_bytes base }
{
    let mut bytes = [0; 64];
    bytes[..8].copy_from_slice(&base.to_le_bytes());
    bytes
}

// An inode of generation 0 with no bytes.
fn empty_inode(kind: Kind) -> Inode
    ensures { result ≡ empty_inode kind 0 }
{
    Inode {
        kind,
        generation: 0,
        size: 0,
        applied: 0,
        root: 0,
        extents: 0,
    }
}

// Sets the inode lines of the staging files, 1 to 4.
fn put_staging_files(bytes: &mut [u8], geometry: &Geometry)
    requires geometry { IsGeometry geometry.now }
    requires size { length bytes.old ≡ 4096 * geometry.now.blocks }
    requires blank { word_at bytes.old ≡ blank }
    ensures { word_at bytes.new ≡ staging_files }
{
    let staging = encode_inode(&empty_inode(Kind::Staging));
    put_line(bytes, geometry.inode_line(4), &staging);
    put_line(bytes, geometry.inode_line(3), &staging);
    put_line(bytes, geometry.inode_line(2), &staging);
    put_line(bytes, geometry.inode_line(1), &staging);
}

// Sets the lines of the fresh image in zeros.
fn put_lines(bytes: &mut [u8], geometry: &Geometry)
    requires geometry { IsGeometry geometry.now }
    requires size { length bytes.old ≡ 4096 * geometry.now.blocks }
    requires blank { word_at bytes.old ≡ blank }
    ensures { word_at bytes.new ≡ fresh geometry.now }
{
    put_staging_files(bytes, geometry);
    let root = encode_inode(&empty_inode(Kind::Directory));
    put_line(bytes, geometry.inode_line(0), &root);
    put_line(bytes, geometry.state_line(), &state_bytes(1));
    put_line(bytes, 0, &geometry.superblock());
}

/// The bytes of the fresh image: the root without names, four empty staging files, the log base 1.
/// It takes `4096 * blocks` bytes of memory.
pub fn fresh_image(alloc: Global, geometry: &Geometry) -> Result<Vec<u8>, AllocError>
    ensures size { IfOk result (λ bytes. length bytes.items ≡ 4096 * geometry.now.blocks) }
    ensures words { IfOk result (λ bytes. word_at bytes.items ≡ fresh geometry.now) }
    ensures in_range { IsGeometry geometry.now }
{
    let mut bytes = zeros(alloc, geometry.blocks)?;
    put_lines(&mut bytes, geometry);
    Ok(bytes)
}
