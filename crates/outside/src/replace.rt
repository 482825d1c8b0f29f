//! How a file is replaced by one that is whole, over any folder.
ghost use Rattle.std.specs.Prelude.{◌≡◌, ◌≢◌, ◌↔◌, ◌++◌, IfOk, OnOk, OnErr, IsErrOf, IsTrue, string_bytes};
ghost use Rattle.outside.specs.Replace.{IsReplaceable, folder_of_lem};
ghost use Rattle.outside.specs.Steps.{HasCause, HasTakenPlace, IsMadeBeside, IsWhole};

use crate::faults::FileFault;
use crate::folder::Folder;
use std::alloc::{AllocError, Global};
use std::fs::Metadata;
use std::io;
use std::io::ErrorKind;
use std::path::Path;

// What stands behind the name of a file in the name of the new file that is to take its place.
const BESIDE: &str = ".splitfs-new";

// The folder of a name that has none before it.
const HERE: &str = ".";

// The fault of an error where a file is read or written, which is there.
pub(crate) fn working_fault(kind: ErrorKind) -> FileFault
    ensures memory { (result ≡ FileFault.NoMemory) ↔ (kind ≡ ErrorKind.OutOfMemory) }
    ensures failed { (result ≡ FileFault.Failed) ↔ (kind ≢ ErrorKind.OutOfMemory) }
{
    if kind == ErrorKind::OutOfMemory {
        FileFault::NoMemory
    } else {
        FileFault::Failed
    }
}

// The name of the new file beside a file.
fn name_beside(alloc: Global, name: &str) -> Result<String, AllocError>
    ensures { IfOk result (λ beside. string_bytes beside ≡ name.now ++ BESIDE.now) }
{
    let mut beside = String::from_str(alloc, name)?;
    beside.push_str(BESIDE)?;
    Ok(beside)
}

// The folder that a name is in.
pub(crate) fn folder_of(name: &str) -> &str
    ensures { result.now ≡ folder_of_lem name.now }
{
    match Path::new(name).parent() {
        Some(parent) if !parent.as_str().is_empty() => parent.as_str(),
        _ => HERE,
    }
}

// Whether a new file may take the place of what was found: of a file that somebody may write.
fn is_replaceable(found: &Metadata) -> bool
    ensures { IsTrue result ↔ IsReplaceable found.now }
{
    found.is_file() && !found.permissions().readonly()
}

// Makes the new file beside a file, with the permissions of the file where it is there. What may
// not be replaced is refused.
#[tactic(auto, using(crate::proofs::Replaced::create_steps))]
fn create_beside<D: Folder>(folder: &D, name: &str, beside: &str) -> io::Result<D::New>
    ensures made { IfOk result (IsMadeBeside D.Folder name.now beside.now) }
    ensures cause { OnErr result (HasCause D.Folder folder.now name.now) }
{
    match folder.metadata(name) {
        Ok(found) => {
            if !is_replaceable(&found) {
                return Err(io::Error::from(ErrorKind::PermissionDenied));
            }
            let new = folder.create(beside)?;
            folder.set_permissions(&new, found.permissions())?;
            Ok(new)
        }
        Err(error) => {
            if error.kind() == ErrorKind::NotFound {
                folder.create(beside)
            } else {
                Err(error)
            }
        }
    }
}

// The new file beside a file, with all of the bytes, on the disk.
#[tactic(auto, using(crate::proofs::Replaced::whole_file))]
fn write_beside<D: Folder>(
    folder: &D,
    name: &str,
    beside: &str,
    bytes: &[u8],
) -> io::Result<D::Written>
    ensures whole { IfOk result (IsWhole D.Folder name.now beside.now bytes.now) }
    ensures cause { OnErr result (HasCause D.Folder folder.now name.now) }
{
    let mut new = create_beside(folder, name, beside)?;
    folder.fill(&mut new, bytes)?;
    folder.sync(new)
}

// Writes the new file, gives it the name of the file, and asks that the folder is put on the disk.
// What that answers changes nothing: by then the file is replaced.
#[tactic(auto, using(crate::proofs::Replaced::place_taken))]
fn put_in_place<D: Folder>(folder: &D, name: &str, beside: &str, bytes: &[u8]) -> io::Result<()>
    ensures replaced { OnOk result (HasTakenPlace D.Folder name.now beside.now bytes.now) }
    ensures cause { OnErr result (HasCause D.Folder folder.now name.now) }
{
    let written = write_beside(folder, name, beside, bytes)?;
    let named = folder.rename(written, beside, name)?;
    let _asked = folder.sync_folder(&named, folder_of(name));
    Ok(())
}

// Replaces a file by a new one of these bytes. Where that fails, it asks that the new one is
// removed.
pub(crate) fn replace_whole<D: Folder>(
    alloc: Global,
    folder: &D,
    name: &str,
    bytes: &[u8],
) -> Result<(), FileFault>
    ensures replaced { OnOk result
        (HasTakenPlace D.Folder name.now (name.now ++ BESIDE.now) bytes.now) }
    ensures cause { IsErrOf result FileFault.Failed → HasCause D.Folder folder.now name.now }
    ensures removed { IsErrOf result FileFault.Failed
        → D.is_removal_asked (name.now ++ BESIDE.now) }
    ensures never_missing { IsErrOf result FileFault.Missing → ⊥ }
{
    let Ok(beside) = name_beside(alloc, name) else {
        return Err(FileFault::NoMemory);
    };
    match put_in_place(folder, name, &beside, bytes) {
        Ok(()) => Ok(()),
        Err(error) => {
            let _left = folder.remove(&beside);
            Err(working_fault(error.kind()))
        }
    }
}
