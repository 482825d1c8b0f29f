//! The log entries of three runs, out of order and with a hole.
use crate::publishing::{Three, three_runs};
use file_overlay::Run;
use k_check::{Geometry, encode};
use k_map_tests::opened;
use k_split::KSplit;
use layout_model::Draft;
use std::alloc::Global;
use test_kit::RowError;

fn generation(k: &KSplit, ino: u32) -> u32 {
    match k.node(ino) {
        Some(node) => node.generation,
        None => 0,
    }
}

// The entry of a run that leaves the file with a length.
fn draft(k: &KSplit, ino: u32, run: &Run, size: u64) -> Draft {
    Draft {
        count: (run.count % 65536) as u16,
        order: run.order,
        ino,
        generation: generation(k, ino),
        file_block: run.file_block,
        staging: run.staging,
        staging_block: run.staging_block,
        staging_generation: generation(k, run.staging),
        size,
    }
}

// Puts an entry into a slot of a log in its first lap.
fn enter(image: &mut [u8], geometry: &Geometry, slot: u32, draft: &Draft) -> Result<(), RowError> {
    if slot >= geometry.log {
        return Err(RowError::Misspelled);
    }
    let line = geometry.log_line(slot);
    if line >= 1 << 32 {
        return Err(RowError::Misspelled);
    }
    let at = 64 * line as usize;
    if image.len() < at + 64 {
        return Err(RowError::Misspelled);
    }
    image[at..at + 64].copy_from_slice(&encode(draft, 1 + u64::from(slot)));
    Ok(())
}

// Puts the first run into slot 1, the second into slot 3, the third into slot 0; slot 2 is a hole.
fn enter_all(image: &mut [u8], k: &KSplit, three: &Three) -> Result<(), RowError> {
    let geometry = k.geometry();
    enter(
        image,
        geometry,
        1,
        &draft(k, three.ino, &three.first, 16384),
    )?;
    enter(
        image,
        geometry,
        3,
        &draft(k, three.ino, &three.second, three.size),
    )?;
    enter(
        image,
        geometry,
        0,
        &draft(k, three.ino, &three.third, three.size),
    )
}

// Puts the entries of the three runs into an image.
pub(crate) fn three_entered(alloc: Global, image: &mut [u8]) -> Result<(), RowError> {
    let k = opened(alloc, image)?;
    enter_all(image, &k, &three_runs())
}
