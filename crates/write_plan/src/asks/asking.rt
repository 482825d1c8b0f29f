//! How a write goes.
ghost use Rattle.std.specs.Prelude.{◌≡◌, ◌≤◌, ◌<◌, ◌+◌, length};
ghost use Rattle.block_counts.specs.declared.TheConstants.{LONGEST_FILE};
ghost use Rattle.file_table.specs.Files.{size_in};
ghost use Rattle.write_plan.specs.Asks.{HaveLines, IsAsked, IsBeside, start_by};

use crate::asks::offsets::start_of;
use crate::rows::{room_by, write_row};
use file_table::FileTable;
use open_files::{OpenFiles, Opened};
use posix_tables::outcomes::answer;
use posix_tables::room::write_need;
use posix_types::{Errno, Handle, Mode, Outcome, Reply, Who};

/// Where the bytes of a write go: its file, the place of its first byte, and the size of the file by what
/// is staged.
#[derive(Clone, Copy)]
pub struct Target {
    /// The inode.
    pub ino: u32,
    /// The place of the first byte, at most 16,777,216.
    pub start: u64,
    /// The size of the file before the write.
    pub size: u64,
}

/// How a write goes.
#[derive(Drop)]
pub enum Asked {
    /// A row fits, which answers it.
    Answered(Outcome),
    /// No row fits, but the writes that are out leave less than it needs: the blocks that it needs, and
    /// those that are left.
    Full { need: u64, left: u64 },
    /// It goes on.
    Goes(Target),
}

// Where it goes through an open handle.
fn target_of(files: &FileTable, opened: &Opened, at: Option<u64>) -> Target
    requires { opened.now.ino < length files.now.sizes }
    ensures ino { result.ino ≡ opened.now.ino }
    ensures start { result.start ≡ start_by files.now opened.now at }
    ensures size { result.size ≡ size_in files.now opened.now.ino }
    ensures small { result.size ≤ LONGEST_FILE }
{
    let start = match at {
        Some(place) => place,
        None => start_of(files, opened),
    };
    Target {
        ino: opened.ino,
        start,
        size: files.size(opened.ino),
    }
}

// Whether the writes that are out leave room for one that no row refuses.
fn beside(mode: Mode, target: Target, len: usize, room: u64, needs: u64) -> Asked
    requires size { target.size ≤ LONGEST_FILE }
    requires end { target.start + len ≤ LONGEST_FILE }
    ensures { IsBeside mode target len room needs result }
{
    let end = target.start + len as u64;
    let need = write_need(mode, target.size, target.start, end);
    let left = room.saturating_sub(needs);
    if left < need {
        Asked::Full { need, left }
    } else {
        Asked::Goes(target)
    }
}

/// How a write of `len` bytes goes, at `at` or where its handle stands: in an image of so many data
/// blocks, beside writes that are out and need `needs` blocks together. Each open file has its line.
pub fn ask(
    mode: Mode,
    tables: &OpenFiles,
    files: &FileTable,
    who: Who,
    handle: Handle,
    at: Option<u64>,
    len: usize,
    data_blocks: u32,
    needs: u64,
) -> Asked
    requires { HaveLines tables.now.tables files.now }
    ensures { IsAsked mode tables.now.tables files.now who handle at len data_blocks needs result }
{
    let Some(opened) = tables.find(who, handle) else {
        return Asked::Answered(answer(Reply::Error(Errno::EBADF)));
    };
    let target = target_of(files, &opened, at);
    let room = room_by(data_blocks, files.held());
    match write_row(
        mode,
        opened.flags.write,
        target.start,
        len,
        target.size,
        room,
    ) {
        Some(outcome) => Asked::Answered(outcome),
        None => beside(mode, target, len, room, needs),
    }
}
