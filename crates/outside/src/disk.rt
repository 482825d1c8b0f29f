//! The real files and the real output. They tell no contents, and count their failures. A file is
//! replaced by a new one that is on the disk before it takes the name, so that no failure leaves a
//! file in part.
ghost use Rattle.std.specs.Prelude.{◌≡◌, ◌≢◌, ◌≤◌, ◌<◌, ◌↔◌, ℕ, List, Option, None, length, OnOk, OnErr, IfOk, IfErr, IfSome, IsErrOf, IsErrAnd, ⊤};
ghost use Rattle.std.specs.Io.KnownBytes.{Appends};
ghost use Rattle.std.specs.IoError.{error_kind};
ghost use Rattle.outside.specs.Outside.{Rose, Takes, TakesFront};

use crate::faults::{FileFault, Files, Sink, SinkFault};
use crate::folder::Folder;
use crate::replace::{replace_whole, working_fault};
use crate::written::{Named, Written};
use std::alloc::Global;
use std::fs::{Metadata, OpenFile, Permissions};
use std::io::{ErrorKind, Read, Write};
use std::{fs, io, rt};

/// The longest file that is read, in bytes: 64 MiB more than the largest image, which has 64 MiB.
pub const LONGEST_READ: usize = 128 << 20;

/// The files of a runtime. A count stands still at 2^64 - 1.
#[derive(Drop)]
pub struct DiskFiles<R: rt::Files + Drop> {
    files: R,
    faults: u64,
    misses: u64,
}

/// The output of a writer. The count stands still at 2^64 - 1.
#[derive(Drop)]
pub struct OutSink<W: Write + Drop> {
    writer: W,
    faults: u64,
}

/// Why a reader was not read whole.
#[derive(Clone, Copy)]
pub enum ReadFault {
    /// It gives more than `LONGEST_READ` bytes.
    TooLong,
    /// It failed with an error of this kind, or no memory was left.
    Broken(ErrorKind),
}

// The fault of an error where a file is opened: `Missing` exactly where there is none.
fn opening_fault(kind: ErrorKind) -> FileFault
    ensures missing { (result ≡ FileFault.Missing) ↔ (kind ≡ ErrorKind.NotFound) }
    ensures memory { (result ≡ FileFault.NoMemory) ↔ (kind ≡ ErrorKind.OutOfMemory) }
{
    if kind == ErrorKind::NotFound {
        FileFault::Missing
    } else {
        working_fault(kind)
    }
}

// The fault of a read that ended early.
fn reading_fault(fault: ReadFault) -> FileFault
    ensures memory { (result ≡ FileFault.NoMemory)
        ↔ (fault ≡ ReadFault.Broken ErrorKind.OutOfMemory) }
    ensures failed { (result ≡ FileFault.Failed)
        ↔ (fault ≢ ReadFault.Broken ErrorKind.OutOfMemory) }
{
    match fault {
        ReadFault::TooLong => FileFault::Failed,
        ReadFault::Broken(kind) => working_fault(kind),
    }
}

/// All bytes that a reader still gives, where it gives at most `LONGEST_READ`. A read that was
/// interrupted is tried again.
pub fn read_whole<R: Read>(alloc: Global, reader: &mut R) -> Result<Vec<u8>, ReadFault>
    ensures whole { IfOk result (λ bytes.
        IfSome (R.remaining reader.old) (λ left. bytes.items ≡ left)) }
    ensures within { IfOk result (λ bytes. length bytes.items ≤ LONGEST_READ) }
    ensures long { IsErrOf result ReadFault.TooLong →
        IfSome (R.remaining reader.old) (λ left. LONGEST_READ < length left) }
    ensures tried_again { IsErrOf result (ReadFault.Broken ErrorKind.Interrupted) → ⊥ }
{
    let mut bytes = Vec::new(alloc);
    let mut piece = [0u8; 4096];
    for _ in 0..u64::MAX {
        match reader.read(&mut piece) {
            Ok(0) => return Ok(bytes),
            Ok(n) => {
                if bytes.extend_from_slice(&piece[..n]).is_err() {
                    return Err(ReadFault::Broken(ErrorKind::OutOfMemory));
                }
                if bytes.len() > LONGEST_READ {
                    return Err(ReadFault::TooLong);
                }
            }
            Err(error) => {
                let kind = error.kind();
                if kind != ErrorKind::Interrupted {
                    return Err(ReadFault::Broken(kind));
                }
            }
        }
    }
    Err(ReadFault::Broken(ErrorKind::TimedOut))
}

// Writes all of the bytes, in as many writes as it takes. A write that was interrupted is tried
// again; one that takes nothing is a failure.
pub(crate) fn write_whole<W: Write>(writer: &mut W, bytes: &[u8]) -> io::Result<()>
    ensures appended { OnOk result
        (Appends (W.contents writer.old) (W.contents writer.new) bytes.now) }
    ensures tried_again { IfErr result (λ e. error_kind e ≢ ErrorKind.Interrupted) }
{
    let mut written = 0;
    for _ in 0..u64::MAX {
        if written == bytes.len() {
            return Ok(());
        }
        match writer.write(&bytes[written..]) {
            Ok(0) => return Err(io::Error::from(ErrorKind::WriteZero)),
            Ok(n) => written += n,
            Err(error) => {
                if error.kind() != ErrorKind::Interrupted {
                    return Err(error);
                }
            }
        }
    }
    Err(io::Error::from(ErrorKind::WriteZero))
}

// Writes all of the bytes and flushes.
fn write_out<W: Write>(writer: &mut W, bytes: &[u8]) -> io::Result<()>
    ensures { OnOk result (Appends (W.contents writer.old) (W.contents writer.new) bytes.now) }
{
    write_whole(writer, bytes)?;
    writer.flush()
}

// The bytes of a file that was opened, or why it was not.
fn read_opened<F: Read + Drop>(alloc: Global, opened: io::Result<F>) -> Result<Vec<u8>, FileFault>
    ensures whole { IfOk opened (λ file. IfOk result (λ bytes.
        IfSome (F.remaining file) (λ left. bytes.items ≡ left))) }
    ensures missing { IsErrOf result FileFault.Missing
        ↔ IsErrAnd opened (λ e. error_kind e ≡ ErrorKind.NotFound) }
{
    match opened {
        Ok(mut file) => match read_whole(alloc, &mut file) {
            Ok(bytes) => Ok(bytes),
            Err(fault) => Err(reading_fault(fault)),
        },
        Err(error) => Err(opening_fault(error.kind())),
    }
}

impl<R: rt::Files + Drop> DiskFiles<R> {
    /// The files that the runtime reaches.
    pub fn new(files: R) -> DiskFiles<R>
        ensures faults { result.faults ≡ 0 }
        ensures misses { result.misses ≡ 0 }
    {
        DiskFiles {
            files,
            faults: 0,
            misses: 0,
        }
    }
}

// Each step is a call of the operating system, which tells nothing. Only what a file tells that it
// holds is known.
impl<R: rt::Files + Drop> Folder for DiskFiles<R> {
    type New = R::File;

    type Written = Written<R::File>;

    type Named = Named;

    ghost has_failed = { λ _. ⊤ };

    ghost is_found = { λ _ _. ⊤ };

    ghost is_missing = { λ _. ⊤ };

    ghost is_made = { λ _ _. ⊤ };

    ghost has_permissions = { λ _ _. ⊤ };

    ghost is_filled = { λ made bytes new.
        Appends (R.File.contents made) (R.File.contents new) bytes };

    ghost is_on_disk = { λ _ _. ⊤ };

    ghost is_renamed = { λ _ _ _ _. ⊤ };

    ghost is_sync_asked = { λ _ _. ⊤ };

    ghost is_removal_asked = { λ _. ⊤ };

    fn metadata(&self, name: &str) -> io::Result<Metadata> {
        fs::metadata(&self.files, name)
    }

    fn create(&self, name: &str) -> io::Result<R::File> {
        fs::create(&self.files, name)
    }

    fn set_permissions(&self, new: &R::File, permissions: Permissions) -> io::Result<()> {
        new.set_permissions(permissions)
    }

    fn fill(&self, new: &mut R::File, bytes: &[u8]) -> io::Result<()> {
        write_whole(new, bytes)
    }

    fn sync(&self, new: R::File) -> io::Result<Written<R::File>> {
        Written::sync(new)
    }

    fn rename(&self, written: Written<R::File>, from: &str, to: &str) -> io::Result<Named> {
        written.rename(&self.files, from, to)
    }

    fn sync_folder(&self, _named: &Named, folder: &str) -> io::Result<()> {
        fs::open(&self.files, folder)?.sync_all()
    }

    fn remove(&self, name: &str) -> io::Result<()> {
        fs::remove_file(&self.files, name)
    }
}

impl<R: rt::Files + AllocGlobal + Drop> Files for DiskFiles<R> {
    ghost told = { λ _. None };

    ghost faults = { λ d. d.faults };

    ghost misses = { λ d. d.misses };

    fn read(&mut self, alloc: Global, name: &str) -> Result<Vec<u8>, FileFault> {
        let result = read_opened(alloc, fs::open(&self.files, name));
        match &result {
            Err(FileFault::Failed) => self.faults = self.faults.saturating_add(1),
            Err(FileFault::Missing) => self.misses = self.misses.saturating_add(1),
            _ => {}
        }
        result
    }

    /// Writes the bytes into a new file beside the file, its name with `.splitfs-new` behind it,
    /// waits until they are on the disk, and then gives the new file the name, in one step of the
    /// operating system. So whenever the process, the host or the disk fails, the name has the old
    /// bytes or all of the new ones.
    ///
    /// Then it waits until the folder is on the disk too. Where that fails, also where the folder
    /// cannot be opened, the answer is Ok all the same: the name has the new bytes, and an error
    /// has to leave the old ones. All that is lost is that a crash of the host may still bring the
    /// old ones back.
    ///
    /// A failure leaves the file as it was, and takes the new file away as far as that goes; a
    /// process that is ended, or a crash, may leave the new file, which the next replace
    /// overwrites. A file that was there under the name with `.splitfs-new` behind it is lost; a
    /// symbolic link of that name is followed, and then takes the name.
    ///
    /// It is answered as Failed also where the folder may not be written, where the last part of
    /// the name gets longer than the file system allows (255 bytes on most), where nobody may write
    /// the file, and where the name is that of a folder, a device or a pipe. The new file has the
    /// permissions of the old one, but it is another file: its owner is who runs this, other hard
    /// links keep the old bytes, and a symbolic link of this name is replaced, and what it leads to
    /// left as it is.
    ///
    /// NoMemory comes where no memory is left for the name of the new file, and where the operating
    /// system has none.
    fn replace(&mut self, name: &str, bytes: &[u8]) -> Result<(), FileFault> {
        match replace_whole(self.files.alloc(), &*self, name, bytes) {
            Ok(()) => Ok(()),
            Err(fault) => {
                if fault == FileFault::Failed {
                    self.faults = self.faults.saturating_add(1);
                }
                Err(fault)
            }
        }
    }
}

impl<W: Write + Drop> OutSink<W> {
    /// A sink that writes to a writer.
    pub fn new(writer: W) -> OutSink<W>
        ensures writer { result.writer ≡ writer }
        ensures faults { result.faults ≡ 0 }
    {
        OutSink { writer, faults: 0 }
    }
}

impl<W: Write + Drop> Sink for OutSink<W> {
    ghost told = { λ _. None };

    ghost faults = { λ s. s.faults };

    fn put(&mut self, bytes: &[u8]) -> Result<(), SinkFault>
        ensures taken { OnOk result (Takes None None bytes.now) }
        ensures front { OnErr result (TakesFront None None bytes.now) }
        ensures faults { self.old.faults ≤ self.new.faults }
        ensures failed { IsErrOf result SinkFault.Failed → Rose self.old.faults self.new.faults }

        // The writer has taken all of the bytes, where it tells what it holds.
        ensures written { OnOk result
            (Appends (W.contents self.old.writer) (W.contents self.new.writer) bytes.now) }
        ensures takes_no_memory { IsErrOf result SinkFault.NoMemory → ⊥ }
    {
        match write_out(&mut self.writer, bytes) {
            Ok(()) => Ok(()),
            Err(_) => {
                self.faults = self.faults.saturating_add(1);
                Err(SinkFault::Failed)
            }
        }
    }
}
