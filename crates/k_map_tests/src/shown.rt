//! What a K-Split shows of a map.
use k_split::KSplit;
use std::alloc::Global;
use test_kit::RowError;

/// The line of an inode and its map: size, order, root, and each extent as FILE:DISKxCOUNT.
pub fn map_text(alloc: Global, k: &KSplit, ino: u32) -> Result<String, RowError> {
    let (Some(inode), Some(map)) = (k.node(ino), k.map(ino)) else {
        return Err(RowError::Misspelled);
    };
    let (size, applied, root) = (inode.size, inode.applied, inode.root);
    let mut text = format!(in alloc; "size {size} applied {applied} root {root}")?;
    for extent in map.extents() {
        let (file, disk, count) = (extent.file, extent.disk, extent.count);
        write!(&mut text, " {file}:{disk}x{count}")?;
    }
    Ok(text)
}
