//! Whether a call waits for a job.
ghost use Rattle.std.specs.Prelude.{◌≡◌, ◌==◌, ◌&&◌, not, ℕ, option_map, Result};
ghost use Rattle.live_model.specs.k_split.Looks.{IsFound};
ghost use Rattle.posix_types.specs.declared.reply.Errno.{Errno};
ghost use Rattle.open_files.specs.posix_tables.declared.open.Description.{Description};
ghost use Rattle.open_files.specs.posix_tables.Open.{opened, same_who};
ghost use Rattle.in_flight.specs.Busy.{found_ino, HoldsFile, IsKept, WaitsForFile};

use crate::counts::KSplit;
use crate::jobs::pending::{JobOut, is_same};
use open_files::OpenFiles;
use posix_types::{Call, Handle, Path, Who};

// The inode of the file that a handle stands for.
fn handle_file(tables: &OpenFiles, who: Who, handle: Handle) -> Option<u32>
    ensures { result ≡ option_map (λ (d : Description). d.node) (opened tables.now.tables who handle) }
{
    match tables.find(who, handle) {
        Some(opened) => Some(opened.ino),
        None => None,
    }
}

// The inode that stands at a path.
fn path_file(k: &KSplit, path: &Path) -> Option<u32>
    ensures { (r : Result ℕ Errno) × IsFound k.now.volume path.now r × (result ≡ found_ino r) }
{
    match k.find(path) {
        Ok(ino) => Some(ino),
        Err(_) => None,
    }
}

/// The inode of the file that a call waits for, if a job is out of it. Calls that look at names alone wait for none.
pub fn waits_for(k: &KSplit, tables: &OpenFiles, who: Who, call: &Call) -> Option<u32>
    ensures { WaitsForFile who call.now k.now tables.now.tables result }
{
    match call {
        Call::Open(_, path, flags) => {
            if flags.truncate {
                path_file(k, path)
            } else {
                None
            }
        }
        Call::Stat(path) => path_file(k, path),
        Call::Close(handle) => handle_file(tables, who, *handle),
        Call::Dup(handle, _) => handle_file(tables, who, *handle),
        Call::Read(handle, _) => handle_file(tables, who, *handle),
        Call::Pread(handle, _, _) => handle_file(tables, who, *handle),
        Call::Write(handle, _) => handle_file(tables, who, *handle),
        Call::Pwrite(handle, _, _) => handle_file(tables, who, *handle),
        Call::Seek(handle, _, _) => handle_file(tables, who, *handle),
        Call::Truncate(handle, _) => handle_file(tables, who, *handle),
        Call::Fsync(handle) => handle_file(tables, who, *handle),
        Call::Mkdir(_) => None,
        Call::Rmdir(_) => None,
        Call::Unlink(_) => None,
        Call::Rename(..) => None,
        Call::List(_) => None,
    }
}

// Whether a job is another caller's, out of this file.
fn is_held(job: &JobOut, ino: u32, who: Who) -> bool
    ensures { result ≡ (not (same_who job.now.who who) && (job.now.draft.ino == ino)) }
{
    !is_same(job.who, who) && job.draft.ino == ino
}

// The caller of a job that is out of a file, but for one caller.
fn holder_of(pending: &[JobOut], ino: u32, who: Who) -> Option<Who>
    ensures { HoldsFile pending.now ino who result }
{
    for job in pending {
        if is_held(job, ino, who) {
            return Some(job.who);
        }
    }
    None
}

/// The file that a call waits for, and the caller of the job that is out of it; none where no job of another caller
/// is.
pub fn keeper(
    k: &KSplit,
    tables: &OpenFiles,
    pending: &[JobOut],
    who: Who,
    call: &Call,
) -> Option<(u32, Who)>
    ensures { IsKept who call.now k.now tables.now.tables pending.now result }
{
    match waits_for(k, tables, who, call) {
        None => None,
        Some(ino) => match holder_of(pending, ino, who) {
            None => None,
            Some(holder) => Some((ino, holder)),
        },
    }
}
