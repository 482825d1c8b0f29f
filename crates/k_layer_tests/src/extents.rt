//! Extents: ranges of a map replaced, cut and cleared, and the one spelling of a map.
use extent_map::{Extent, ExtentMap, FILE_BLOCKS};
use std::alloc::{AllocError, Global};
use std::test::Fail;
use test_kit::RowError;

const fn extent(file: u32, disk: u32, count: u32) -> Extent {
    Extent { file, disk, count }
}

fn map_of(alloc: Global, extents: &[Extent]) -> Result<ExtentMap, RowError> {
    match ExtentMap::from_extents(alloc, extents)? {
        Some(map) => Ok(map),
        None => Err(RowError::Misspelled),
    }
}

// Whether a small run that is put into a map displaces this extent, and leaves those.
fn replaces(
    map: &mut ExtentMap,
    run: Extent,
    displaced: Extent,
    left: &[Extent],
) -> Result<bool, AllocError> {
    if run.file >= 64 || run.disk >= 64 || run.count >= 64 {
        return Ok(false);
    }
    let came = map.replace_range(run)?;
    Ok(came.as_slice() == [displaced].as_slice() && map.extents() == left)
}

// Whether a cut from a file block on displaces this extent.
fn cuts(map: &mut ExtentMap, from: u32, displaced: Extent) -> Result<bool, AllocError> {
    let came = map.cut(from)?;
    Ok(came.as_slice() == [displaced].as_slice())
}

// Whether the first file blocks, fewer than 64, that are cleared displace this extent.
fn clears(map: &mut ExtentMap, count: u32, displaced: Extent) -> Result<bool, AllocError> {
    if count >= 64 {
        return Ok(false);
    }
    let came = map.clear_range(0, count)?;
    Ok(came.as_slice() == [displaced].as_slice())
}

// A range in the middle of one extent splits it in three; what touches in the file and on the disk becomes one again.
fn is_replaced(map: &mut ExtentMap) -> Result<bool, AllocError> {
    let left = [extent(0, 10, 1), extent(1, 20, 2), extent(3, 13, 1)];
    if !replaces(map, extent(1, 20, 2), extent(1, 11, 2), &left)? {
        return Ok(false);
    }
    replaces(map, extent(1, 11, 2), extent(1, 20, 2), &[extent(0, 10, 4)])
}

// Then a cut and a clearing leave the middle.
fn is_cut_and_cleared(map: &mut ExtentMap) -> Result<bool, AllocError> {
    if !cuts(map, 3, extent(3, 13, 1))? || !clears(map, 1, extent(0, 10, 1))? {
        return Ok(false);
    }
    Ok(map.extents() == [extent(1, 11, 2)].as_slice())
}

// A copy looks up the same.
fn is_copied(alloc: Global, map: &ExtentMap) -> Result<bool, AllocError> {
    let copy = map.copied(alloc)?;
    Ok(copy.lookup(2) == Some(12) && copy.lookup(3).is_none())
}

fn is_as_worked(alloc: Global) -> Result<bool, RowError> {
    let mut map = map_of(alloc, &[extent(0, 10, 4)])?;
    Ok(is_replaced(&mut map)? && is_cut_and_cleared(&mut map)? && is_copied(alloc, &map)?)
}

#[test]
fn a_map_is_changed_as_worked_by_hand(rt: HostRuntime) -> Result<(), Fail> {
    assert!(rt; is_as_worked(rt.alloc())?);
    Ok(())
}

// Whether extents are the one spelling of a map.
fn is_map(alloc: Global, extents: &[Extent]) -> Result<bool, AllocError> {
    Ok(ExtentMap::from_extents(alloc, extents)?.is_some())
}

// Whether two extents are no spelling of a map.
fn is_no_map(alloc: Global, first: Extent, second: Extent) -> Result<bool, AllocError> {
    Ok(!is_map(alloc, &[first, second])?)
}

// The first extent has no block; touches the second in the file and on the disk, or overlaps it there; stands behind it; the
// second ends past the last block of a file, or of a disk.
fn are_no_maps(alloc: Global) -> Result<bool, AllocError> {
    let last = FILE_BLOCKS - 1;
    Ok(
        is_no_map(alloc, extent(0, 10, 0), extent(1, 20, 1))?
            && is_no_map(alloc, extent(0, 10, 2), extent(1, 20, 1))?
            && is_no_map(alloc, extent(0, 10, 2), extent(2, 12, 1))?
            && is_no_map(alloc, extent(4, 10, 2), extent(1, 20, 1))?
            && is_no_map(alloc, extent(0, 10, 1), extent(last, 20, 2))?
            && is_no_map(alloc, extent(0, 10, 1), extent(1, u32::MAX, 1))?,
    )
}

fn is_one_spelling(alloc: Global) -> Result<bool, AllocError> {
    let last = FILE_BLOCKS - 1;
    let good = [extent(0, 10, 2), extent(2, 13, 1), extent(last, 14, 1)];
    Ok(is_map(alloc, &good)? && are_no_maps(alloc)?)
}

#[test]
fn only_the_one_spelling_is_a_map(rt: HostRuntime) -> Result<(), Fail> {
    assert!(rt; is_one_spelling(rt.alloc())?);
    Ok(())
}
