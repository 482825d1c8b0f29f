//! The offset of a handle behind a write.
ghost use Rattle.std.specs.Prelude.{◌≡◌, ◌<◌, ◌+◌, length, unwrap_or, if◌then◌else◌};
ghost use Rattle.file_table.specs.Files.{size_in};
ghost use Rattle.posix_tables.specs.Open.{key_of, with_offset};
ghost use Rattle.write_plan.specs.Asks.{CanMove, CanMoveBy, moved_by, start_in};

use file_table::FileTable;
use open_files::{OpenFiles, Opened};
use posix_types::{Call, Handle, Who};

// Where a write through a handle begins.
pub(crate) fn start_of(files: &FileTable, opened: &Opened) -> u64
    requires { opened.now.ino < length files.now.sizes }
    ensures { result ≡ (if opened.now.flags.append then size_in files.now opened.now.ino
        else opened.now.offset) }
{
    if opened.flags.append {
        files.size(opened.ino)
    } else {
        opened.offset
    }
}

// Moves the offset of a handle behind so many bytes that are written there.
fn move_offset(tables: &mut OpenFiles, files: &FileTable, who: Who, handle: Handle, len: u64)
    requires { CanMove tables.old.tables files.now who handle len }
    ensures { tables.new.tables ≡ with_offset tables.old.tables
        (unwrap_or (key_of tables.old.tables who handle) 0)
        (start_in tables.old.tables files.now who handle + len) }
{
    let Some(opened) = tables.find(who, handle) else {
        return;
    };
    let start = start_of(files, &opened);
    tables.set_offset(opened.key, start + len);
}

/// Moves the offset that a write moves: behind its bytes for `write`; none for `pwrite`. The handle is
/// open and its file has a line.
pub fn move_by(tables: &mut OpenFiles, files: &FileTable, who: Who, call: &Call)
    requires { CanMoveBy tables.old.tables files.now who call.now }
    ensures { tables.new.tables ≡ moved_by tables.old.tables files.now who call.now }
{
    match call {
        Call::Write(handle, data) => {
            move_offset(tables, files, who, *handle, data.len() as u64);
        }
        Call::Mkdir(_)
        | Call::Rmdir(_)
        | Call::Unlink(_)
        | Call::Rename(_, _)
        | Call::Open(_, _, _)
        | Call::Close(_)
        | Call::Dup(_, _)
        | Call::Read(_, _)
        | Call::Pread(_, _, _)
        | Call::Pwrite(_, _, _)
        | Call::Seek(_, _, _)
        | Call::Truncate(_, _)
        | Call::Fsync(_)
        | Call::Stat(_)
        | Call::List(_) => {}
    }
}
