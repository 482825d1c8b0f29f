//! Lists of extents in the one spelling, as they grow at their end.
ghost use Rattle.std.specs.Prelude.{◌≡◌, ℕ, ◌+◌, ◌-◌, ◌<◌, ◌≤◌, ◌^◌, ◌↔◌, [], not, length, sum_by, IsTrue, IsSome, IfOk, OnOk};
ghost use Rattle.extent_model.specs.Extents.{is_between, disk_at, block_count, IsExtent, IsCanonical};
ghost use Rattle.extent_model.specs.Maps.{IsPart, Replaces};
ghost use Rattle.extent_map.specs.Pieces.{shared, IsBegun, Appends, AppendsBetween};

use crate::extents::{comes_after, is_continued, is_extent, piece_between};
use extent_model::{Extent, FILE_BLOCKS};
use std::alloc::{AllocError, Global};

/// Whether the extents are the one spelling of a map.
pub(crate) fn is_canonical(extents: &[Extent]) -> bool
    ensures { IsTrue result ↔ IsCanonical extents.now }
{
    for (i, extent) in extents.iter().enumerate() {
        if !is_extent(*extent) {
            return false;
        }
        if i > 0 && !comes_after(extents[i - 1], *extent) {
            return false;
        }
    }
    true
}

/// How many of the extents begin at a file block or before it. It halves the list until one extent is
/// left.
fn begun_by(extents: &[Extent], block: u32) -> usize
    requires { IsCanonical extents.now }
    ensures { IsBegun extents.now block result }
{
    extents.partition_point(|extent| extent.file <= block)
}

/// The disk block of a file block.
pub(crate) fn disk_block(extents: &[Extent], block: u32) -> Option<u32>
    requires { IsCanonical extents.now }
    ensures { result ≡ disk_at extents.now block }
{
    let begun = begun_by(extents, block);
    if begun == 0 {
        return None;
    }
    let extent = extents[begun - 1];
    if block - extent.file < extent.count {
        Some(extent.disk + (block - extent.file))
    } else {
        None
    }
}

/// One past the last file block that has a disk block; 0 where none has.
pub(crate) fn file_end(extents: &[Extent]) -> u32
    requires { IsCanonical extents.now }
    ensures past { (b : ℕ) → result ≤ b → disk_at extents.now b ≡ None }
    ensures last { 0 < result → IsSome (disk_at extents.now (result - 1)) }
{
    if extents.is_empty() {
        return 0;
    }
    let last = extents[extents.len() - 1];
    last.file + last.count
}

/// Appends an extent that lies behind the list's, or makes the last one longer where the two can be
/// one.
fn append(extents: &mut Vec<Extent>, next: Extent) -> Result<(), AllocError>
    requires canonical { IsCanonical extents.old.items }
    requires extent { IsExtent next }
    requires behind { (b : ℕ) → next.file ≤ b → disk_at extents.old.items b ≡ None }
    ensures { OnOk result (Appends next extents.old.items extents.new.items) }
{
    let count = extents.len();
    if count > 0 && is_continued(extents[count - 1], next) {
        extents[count - 1].count += next.count;
        return Ok(());
    }
    extents.push(next)?;
    Ok(())
}

/// Appends the parts of extents in the one spelling that lie from file block `from` on and before
/// `to`.
fn append_between(
    extents: &mut Vec<Extent>,
    source: &[Extent],
    from: u32,
    to: u32,
) -> Result<(), AllocError>
    requires canonical { IsCanonical extents.old.items }
    requires source { IsCanonical source.now }
    requires behind { (b : ℕ) → from ≤ b → disk_at extents.old.items b ≡ None }
    ensures { OnOk result (AppendsBetween from to source.now extents.old.items extents.new.items) }
{
    for extent in source {
        if let Some(piece) = piece_between(*extent, from, to) {
            append(extents, piece)?;
        }
    }
    Ok(())
}

/// What the extents have from file block `from` on and before `to`.
pub(crate) fn between(
    alloc: Global,
    source: &[Extent],
    from: u32,
    to: u32,
) -> Result<Vec<Extent>, AllocError>
    requires source { IsCanonical source.now }
    ensures part { IfOk result (λ part. IsPart (is_between from to) source.now part.items) }
    ensures few { IfOk result (λ part. length part.items ≤ length source.now) }
    ensures count { IfOk result (λ part. block_count part.items ≡ sum_by (shared from to) source.now) }
{
    let mut extents = Vec::new(alloc);
    append_between(&mut extents, source, from, to)?;
    Ok(extents)
}

/// What the extents have before file block `from` and from `to` on.
pub(crate) fn outside(
    alloc: Global,
    source: &[Extent],
    from: u32,
    to: u32,
) -> Result<Vec<Extent>, AllocError>
    requires source { IsCanonical source.now }
    requires from { from ≤ to }
    requires to { to ≤ FILE_BLOCKS }
    ensures part { IfOk result (λ part.
        IsPart (λ b. not (is_between from to b)) source.now part.items) }
    ensures few { IfOk result (λ part. length part.items ≤ length source.now + 1) }
    ensures count { IfOk result (λ part. block_count part.items
        ≡ sum_by (shared 0 from) source.now + sum_by (shared to FILE_BLOCKS) source.now) }
{
    let mut extents = Vec::new(alloc);
    append_between(&mut extents, source, 0, from)?;
    append_between(&mut extents, source, to, FILE_BLOCKS)?;
    Ok(extents)
}

/// The extents with a run in place of what they have there. A run of no blocks changes nothing.
pub(crate) fn with_run(
    alloc: Global,
    source: &[Extent],
    run: Extent,
) -> Result<Vec<Extent>, AllocError>
    requires source { IsCanonical source.now }
    requires in_file { run.file + run.count ≤ FILE_BLOCKS }
    requires on_disk { run.disk + run.count < 2 ^ 32 }
    ensures map { IfOk result (λ map. Replaces run source.now map.items) }
    ensures few { IfOk result (λ map. length map.items ≤ length source.now + 2) }
    ensures count { IfOk result (λ map. block_count map.items
        ≡ sum_by (shared 0 run.file) source.now + run.count
        + sum_by (shared (run.file + run.count) FILE_BLOCKS) source.now) }
{
    let mut extents = Vec::new(alloc);
    append_between(&mut extents, source, 0, run.file)?;
    append_run(&mut extents, run)?;
    append_between(&mut extents, source, run.file + run.count, FILE_BLOCKS)?;
    Ok(extents)
}

/// Appends a run that lies behind the list, if it has a block.
fn append_run(extents: &mut Vec<Extent>, run: Extent) -> Result<(), AllocError>
    requires canonical { IsCanonical extents.old.items }
    requires in_file { run.file + run.count ≤ FILE_BLOCKS }
    requires on_disk { run.disk + run.count < 2 ^ 32 }
    requires behind { (b : ℕ) → run.file ≤ b → disk_at extents.old.items b ≡ None }
    ensures { OnOk result (Appends run extents.old.items extents.new.items) }
{
    if run.count == 0 {
        return Ok(());
    }
    append(extents, run)
}
