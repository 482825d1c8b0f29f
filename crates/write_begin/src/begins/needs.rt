//! What a call needs.
ghost use Rattle.std.specs.Prelude.{◌≡◌};
ghost use Rattle.write_plan.specs.Asks.{HaveLines};
ghost use Rattle.write_begin.specs.Needs.{need_by, need_through, start_from};

use crate::stages::{OpenFiles, Opened};
use posix_tables::bytes::is_too_far;
use posix_tables::room::write_need;
use posix_types::{Call, Handle, Mode, Who};
use write_plan::FileTable;

// Where a write through an open handle begins.
fn start_of(opened: &Opened, size: u64, at: Option<u64>) -> u64
    ensures { result ≡ start_from opened.now size at }
{
    match at {
        Some(place) => place,
        None => {
            if opened.flags.append {
                size
            } else {
                opened.offset
            }
        }
    }
}

// What a write of `len` bytes needs, at `at` or where its handle stands.
fn need_through(
    mode: Mode,
    tables: &OpenFiles,
    files: &FileTable,
    who: Who,
    handle: Handle,
    at: Option<u64>,
    len: usize,
) -> u64
    requires { HaveLines tables.now.tables files.now }
    ensures { result ≡ need_through mode tables.now.tables files.now who handle at len }
{
    let Some(opened) = tables.find(who, handle) else {
        return 0;
    };
    let size = files.size(opened.ino);
    let start = start_of(&opened, size, at);
    if !opened.flags.write || is_too_far(start, len as u64) {
        return 0;
    }
    write_need(mode, size, start, start + len as u64)
}

/// What a call needs, in blocks: a write what its mode stages anew and what its file grows by; nothing
/// where its handle may not write or it would end behind the longest file; other calls nothing. Each open file
/// has its line.
pub fn need_of(mode: Mode, tables: &OpenFiles, files: &FileTable, who: Who, call: &Call) -> u64
    requires { HaveLines tables.now.tables files.now }
    ensures { result ≡ need_by mode tables.now.tables files.now who call.now }
{
    match call {
        Call::Write(handle, data) => {
            need_through(mode, tables, files, who, *handle, None, data.len())
        }
        Call::Pwrite(handle, offset, data) => need_through(
            mode,
            tables,
            files,
            who,
            *handle,
            Some(*offset),
            data.len(),
        ),
        Call::Mkdir(_)
        | Call::Rmdir(_)
        | Call::Unlink(_)
        | Call::Rename(_, _)
        | Call::Open(_, _, _)
        | Call::Close(_)
        | Call::Dup(_, _)
        | Call::Read(_, _)
        | Call::Pread(_, _, _)
        | Call::Seek(_, _, _)
        | Call::Truncate(_, _)
        | Call::Fsync(_)
        | Call::Stat(_)
        | Call::List(_) => 0,
    }
}
