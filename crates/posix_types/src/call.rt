//! The calls, and who makes them. A call is copied by one function for each kind that takes memory.
ghost use Rattle.std.specs.Prelude.{◌≡◌, IfOk};

use crate::data::Data;
use crate::handle::{Flags, Handle, Whence};
use crate::name::Path;
use std::alloc::AllocError;

/// The guarantee that a file system gives: what a power loss may leave.
#[derive(Clone, Copy, Debug, PartialEq, Eq)]
pub enum Mode {
    Posix,
    Sync,
    Strict,
}

/// Who makes a call: the set-up, or a thread by its number.
#[derive(Clone, Copy, Debug, PartialEq, Eq)]
pub enum Who {
    Setup,
    Thread(u32),
}

/// A file call. `Open` has the handle first, `Dup` the old handle before the new one; `Read` and
/// `Truncate` have a number of bytes; `Pread` and `Pwrite` have the offset second.
#[derive(Drop)]
pub enum Call {
    Mkdir(Path),
    Rmdir(Path),
    Unlink(Path),
    Rename(Path, Path),
    Open(Handle, Path, Flags),
    Close(Handle),
    Dup(Handle, Handle),
    Read(Handle, u64),
    Pread(Handle, u64, u64),
    Write(Handle, Data),
    Pwrite(Handle, u64, Data),
    Seek(Handle, Whence, i64),
    Truncate(Handle, u64),
    Fsync(Handle),
    Stat(Path),
    List(Path),
}

fn mkdir_copied(path: &Path) -> Result<Call, AllocError>
    ensures { IfOk result (λ call. call ≡ Call.Mkdir path.now) }
{
    Ok(Call::Mkdir(path.clone()?))
}

fn rmdir_copied(path: &Path) -> Result<Call, AllocError>
    ensures { IfOk result (λ call. call ≡ Call.Rmdir path.now) }
{
    Ok(Call::Rmdir(path.clone()?))
}

fn unlink_copied(path: &Path) -> Result<Call, AllocError>
    ensures { IfOk result (λ call. call ≡ Call.Unlink path.now) }
{
    Ok(Call::Unlink(path.clone()?))
}

fn rename_copied(from: &Path, to: &Path) -> Result<Call, AllocError>
    ensures { IfOk result (λ call. call ≡ Call.Rename from.now to.now) }
{
    Ok(Call::Rename(from.clone()?, to.clone()?))
}

fn open_copied(handle: Handle, path: &Path, flags: Flags) -> Result<Call, AllocError>
    ensures { IfOk result (λ call. call ≡ Call.Open handle path.now flags) }
{
    Ok(Call::Open(handle, path.clone()?, flags))
}

fn write_copied(handle: Handle, bytes: &Data) -> Result<Call, AllocError>
    ensures { IfOk result (λ call. call ≡ Call.Write handle bytes.now) }
{
    Ok(Call::Write(handle, bytes.clone()?))
}

fn pwrite_copied(handle: Handle, offset: u64, bytes: &Data) -> Result<Call, AllocError>
    ensures { IfOk result (λ call. call ≡ Call.Pwrite handle offset bytes.now) }
{
    Ok(Call::Pwrite(handle, offset, bytes.clone()?))
}

fn stat_copied(path: &Path) -> Result<Call, AllocError>
    ensures { IfOk result (λ call. call ≡ Call.Stat path.now) }
{
    Ok(Call::Stat(path.clone()?))
}

fn list_copied(path: &Path) -> Result<Call, AllocError>
    ensures { IfOk result (λ call. call ≡ Call.List path.now) }
{
    Ok(Call::List(path.clone()?))
}

impl Clone for Call {
    ghost is_clone = { λ a b. b ≡ a };

    fn clone(&self) -> Result<Call, AllocError> {
        match self {
            Call::Mkdir(path) => mkdir_copied(path),
            Call::Rmdir(path) => rmdir_copied(path),
            Call::Unlink(path) => unlink_copied(path),
            Call::Rename(from, to) => rename_copied(from, to),
            Call::Open(handle, path, flags) => open_copied(*handle, path, *flags),
            Call::Close(handle) => Ok(Call::Close(*handle)),
            Call::Dup(old, new) => Ok(Call::Dup(*old, *new)),
            Call::Read(handle, count) => Ok(Call::Read(*handle, *count)),
            Call::Pread(handle, offset, count) => Ok(Call::Pread(*handle, *offset, *count)),
            Call::Write(handle, bytes) => write_copied(*handle, bytes),
            Call::Pwrite(handle, offset, bytes) => pwrite_copied(*handle, *offset, bytes),
            Call::Seek(handle, whence, by) => Ok(Call::Seek(*handle, *whence, *by)),
            Call::Truncate(handle, length) => Ok(Call::Truncate(*handle, *length)),
            Call::Fsync(handle) => Ok(Call::Fsync(*handle)),
            Call::Stat(path) => stat_copied(path),
            Call::List(path) => list_copied(path),
        }
    }
}
