//! New files of the operating system, as far as they are. Their fields are private, so that a
//! `Written` comes only from a file that is on the disk, and a `Named` only from a `Written` that
//! was given the name.
use std::fs::OpenFile;
use std::{fs, io, rt};

/// A file that is on the disk as it was written. It is open, and nobody can write it by this value.
#[derive(Drop)]
pub(crate) struct Written<F: Drop> {
    _file: F,
}

/// A file that has the name of another.
#[derive(Drop)]
pub(crate) struct Named {
    _renamed: (),
}

impl<F: OpenFile + Drop> Written<F> {
    /// Waits until the file is on the disk.
    pub(crate) fn sync(file: F) -> io::Result<Written<F>> {
        file.sync_all()?;
        Ok(Written { _file: file })
    }

    /// Gives the file, which is under the first name, the second one.
    pub(crate) fn rename<R: rt::Files>(self, files: &R, from: &str, to: &str) -> io::Result<Named> {
        fs::rename(files, from, to)?;
        Ok(Named { _renamed: () })
    }
}
