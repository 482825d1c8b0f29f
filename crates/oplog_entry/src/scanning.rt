//! The entries that are valid in the lines of a log.
ghost use Rattle.std.specs.Prelude.{◌≡◌, ◌+◌, ◌<◌, ◌^◌, length, IfOk};
ghost use Rattle.pm_lines.specs.pm_model.Images.{words_of};
ghost use Rattle.pm_lines.specs.pm_model.Words.{line_bytes};
ghost use Rattle.oplog_entry.specs.Scans.{entries_in};

use crate::entry::decode;
use image_layout::put_u64;
use layout_model::Draft;
use pm_lines::Line;
use std::alloc::{AllocError, Global};

// The bytes of the line, of each word the newest candidate.
fn bytes_of(line: &Line) -> [u8; 64]
    ensures { result ≡ line_bytes (words_of line.now.cells) 0 }
{
    let mut bytes = [0; 64];
    for word in 0..8 {
        put_u64(&mut bytes, 8 * word as usize, line.read_word(word));
    }
    bytes
}

/// The slots whose lines are entries of this lap, by rising number, each with its draft. The lines
/// are those of the log from slot 0 on, and `base` is its base; a line that is no entry is passed
/// over, whatever comes behind it.
pub fn scan(alloc: Global, lines: &[Line], base: u64) -> Result<Vec<(u64, Draft)>, AllocError>
    requires { base + length lines.now < 2 ^ 64 }
    ensures { IfOk result (λ found. found.items ≡ entries_in lines.now base) }
{
    let mut found = Vec::new(alloc);
    for (slot, line) in lines.iter().enumerate() {
        let slot = slot as u64;
        if let Some(draft) = decode(&bytes_of(line), base + slot) {
            found.push((slot, draft))?;
        }
    }
    Ok(found)
}
