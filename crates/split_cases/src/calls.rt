//! The calls of a load, each by one draw.
ghost use Rattle.std.specs.Prelude.{◌≡◌, ◌<◌, IfOk};
ghost use Rattle.split_cases.specs.Load.{load_bytes, load_call, load_flags, load_handle, load_length, load_offset, load_open, load_path};

use posix_types::{Call, Data, Flags, Handle, Name, Path};
use std::alloc::{AllocError, Global};

/// The handle of a thread.
fn load_handle(t: u32) -> Handle
    requires { t < 8 }
    ensures { result ≡ load_handle t }
{
    Handle {
        len: 2,
        bytes: [b'h', b'0' + t as u8, 0, 0, 0, 0, 0, 0],
    }
}

/// The path of the file of a thread.
fn load_path(alloc: Global, t: u32) -> Result<Path, AllocError>
    requires { t < 8 }
    ensures { IfOk result (λ path. path ≡ load_path t) }
{
    let bytes = vec![in alloc; b'f', b'0' + t as u8]?;
    let names = vec![in alloc; Name { bytes }]?;
    Ok(Path { names })
}

/// For reading and writing, made where it is missing.
fn load_flags() -> Flags
    ensures { result ≡ load_flags }
{
    Flags {
        read: true,
        write: true,
        append: false,
        create: true,
        exclusive: false,
        truncate: false,
    }
}

/// How many bytes a draw says.
fn load_length(r: u64) -> u64
    ensures { result ≡ load_length r }
{
    1 + r / 8 % 2048
}

/// Where, by a draw.
fn load_offset(r: u64) -> u64
    ensures { result ≡ load_offset r }
{
    r / 16384 % 65536
}

/// The bytes of a write.
fn load_bytes(alloc: Global, t: u32, r: u64) -> Result<Data, AllocError>
    requires { t < 8 }
    ensures { IfOk result (λ bytes. bytes ≡ load_bytes t r) }
{
    let bytes = vec![in alloc; b'a' + t as u8; load_length(r) as usize]?;
    Data::of(bytes)
}

/// The call of the set-up that opens a thread's file.
pub(crate) fn load_open(alloc: Global, t: u32) -> Result<Call, AllocError>
    requires { t < 8 }
    ensures { IfOk result (λ call. call ≡ load_open t) }
{
    let path = load_path(alloc, t)?;
    Ok(Call::Open(load_handle(t), path, load_flags()))
}

/// The call of a thread by a draw.
#[tactic(auto, unfolding(crate::specs::Load::load_call))]
pub(crate) fn load_call(alloc: Global, t: u32, r: u64) -> Result<Call, AllocError>
    requires { t < 8 }
    ensures { IfOk result (λ call. call ≡ load_call t r) }
{
    let handle = load_handle(t);
    let kind = r % 8;
    if kind <= 3 {
        return Ok(Call::Write(handle, load_bytes(alloc, t, r)?));
    }
    if kind <= 5 {
        return Ok(Call::Pwrite(handle, load_offset(r), load_bytes(alloc, t, r)?));
    }
    if kind == 6 {
        return Ok(Call::Pread(handle, load_offset(r), load_length(r)));
    }
    Ok(Call::Fsync(handle))
}
