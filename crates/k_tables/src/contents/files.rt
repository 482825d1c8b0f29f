//! The bytes of a file, line by line.
ghost use Rattle.std.specs.Prelude.{◌≡◌, ◌+◌, ◌*◌, ◌≤◌, ◌<◌, length, IfOk, OnOk};
ghost use Rattle.posix_tables.specs.block_counts.declared.TheConstants.{LONGEST_FILE};
ghost use Rattle.std.specs.Option.{ForSome};
ghost use Rattle.pm_lines.specs.pm_model.Cells.{AllHome};
ghost use Rattle.pm_lines.specs.pm_model.Images.{words_of};
ghost use Rattle.k_tables.specs.Files.{first_bytes, line_in, IsInside};

use extent_map::ExtentMap;
use pm_lines::Pm;
use posix_types::Data;
use std::alloc::{AllocError, Global};

// A line of a disk block, zeros in a hole.
fn line_in(pm: &Pm, block: Option<u32>, line: u32) -> [u8; 64]
    requires home { AllHome pm.now }
    requires inside { ForSome block (λ b. 512 * b + 512 ≤ length pm.now) }
    requires in_block { line < 64 }
    ensures { result ≡ line_in (words_of pm.now) block line }
{
    match block {
        Some(b) => pm.read_line(64 * u64::from(b) + u64::from(line)),
        None => [0; 64],
    }
}

// Puts so many bytes of a line of a file behind those of the lines before it.
fn push_line(
    bytes: &mut Vec<u8>,
    pm: &Pm,
    map: &ExtentMap,
    line: u32,
    count: usize,
) -> Result<(), AllocError>
    requires home { AllHome pm.now }
    requires inside { IsInside map.now pm.now }
    requires few { count ≤ 64 }
    requires before { bytes.old.items ≡ first_bytes map.now (words_of pm.now) (64 * line) }
    ensures { OnOk result
        (bytes.new.items ≡ first_bytes map.now (words_of pm.now) (64 * line + count)) }
{
    let content = line_in(pm, map.lookup(line / 64), line % 64);
    bytes.extend_from_slice(&content[..count])?;
    Ok(())
}

/// The bytes of a file of this size, in bytes, with this map.
pub(crate) fn read_file(
    alloc: Global,
    pm: &Pm,
    map: &ExtentMap,
    size: u64,
) -> Result<Data, AllocError>
    requires home { AllHome pm.now }
    requires inside { IsInside map.now pm.now }
    requires small { size ≤ LONGEST_FILE }
    ensures { IfOk result (λ bytes. bytes ≡ first_bytes map.now (words_of pm.now) size) }
{
    let mut bytes = Vec::with_capacity(alloc, size as usize)?;
    let lines = (size / 64) as u32;
    for line in 0..lines {
        push_line(&mut bytes, pm, map, line, 64)?;
    }
    push_line(&mut bytes, pm, map, lines, (size % 64) as usize)?;
    Data::of(bytes)
}
