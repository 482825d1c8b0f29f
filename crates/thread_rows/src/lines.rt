//! Lines of zeros, as a log is opened with, and drafts that differ.
ghost use Rattle.std.specs.Prelude.{◌≡◌, ◌*◌, ◌≤◌, ◌<◌, ℕ, length, IfOk};
ghost use Rattle.oplog_entry.specs.pm_model.Cells.{AllSingle};
ghost use Rattle.oplog_entry.specs.EntryLines.{IsSingle};
ghost use Rattle.oplog_entry.specs.LogLines.{line_at};

use oplog_entry::Draft;
use pm_lines::{Line, Pm};
use std::alloc::{AllocError, Global};

// A device of zeros.
fn device(alloc: Global, blocks: usize) -> Result<Pm, AllocError>
    requires { blocks ≤ 1024 }
    ensures size { IfOk result (λ pm. length pm ≡ 512 * blocks) }
    ensures single { IfOk result AllSingle }
{
    let image = vec![in alloc; 0u8; 4096 * blocks]?;
    Pm::from_image(alloc, &image)
}

// The first lines of a device.
fn first_lines(alloc: Global, pm: Pm, count: u64) -> Result<Vec<Line>, AllocError>
    requires size { 8 * count ≤ length pm }
    requires single { AllSingle pm }
    ensures count { IfOk result (λ lines. length lines.items ≡ count) }
    ensures single { IfOk result (λ lines. (n : ℕ) → n < length lines.items
        → IsSingle (line_at lines.items n).cells) }
{
    let mut pm = pm;
    let mut lines = Vec::new(alloc);
    for number in 0..count {
        lines.push(pm.take_line(number))?;
    }
    Ok(lines)
}

// So many lines of zeros, taken out of a device.
pub(crate) fn lines_of(alloc: Global, count: u64) -> Result<Vec<Line>, AllocError>
    requires { count ≤ 4096 }
    ensures count { IfOk result (λ lines. length lines.items ≡ count) }
    ensures single { IfOk result (λ lines. (n : ℕ) → n < length lines.items
        → IsSingle (line_at lines.items n).cells) }
{
    let pm = device(alloc, (count as usize).div_ceil(64))?;
    first_lines(alloc, pm, count)
}

// A draft of its own for each thread and each of its appends, of order 1 or more.
pub(crate) fn draft(thread: u64, append: u64) -> Draft {
    Draft {
        count: 1,
        order: thread
            .wrapping_mul(1_000)
            .wrapping_add(append)
            .wrapping_add(1),
        ino: 5,
        generation: 1,
        file_block: 7,
        staging: 2,
        staging_block: 3,
        staging_generation: 1,
        size: 32_768,
    }
}
