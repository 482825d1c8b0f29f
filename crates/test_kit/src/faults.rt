//! Why a row of a table gave no answer.
use outside::FileFault;
use std::alloc::{AllocError, AllocFailed};
use std::error::Error;
use std::fmt;

/// Why a row of a table gave no answer.
#[derive(Clone, Copy)]
pub enum RowError {
    /// No memory was left.
    NoMemory,
    /// A file in memory was not read or replaced.
    File,
    /// A line of the table is not in its language, or asks for what is not there.
    Misspelled,
    /// A command was not done.
    NotRun,
    /// Rows did not go `ok`, or are not as many as they should be.
    Differ,
    /// What a layer has is not what the plain model beside it has.
    Unlike,
    /// The power is lost, or a journal is damaged.
    PowerLost,
    /// The device breaks a rule.
    Damaged,
}

impl RowError {
    /// What is told of it.
    pub fn text(&self) -> &'static str {
        match self {
            RowError::NoMemory => "no memory is left",
            RowError::File => "a file is not there",
            RowError::Misspelled => "a line is misspelled",
            RowError::NotRun => "a script was not run",
            RowError::Differ => "not all rows are ok",
            RowError::Unlike => "the layer has not what the model has",
            RowError::PowerLost => "the power is lost",
            RowError::Damaged => "the device breaks a rule",
        }
    }
}

impl fmt::Display for RowError {
    fn fmt<W: fmt::Write>(&self, f: &mut fmt::Formatter<W>) -> fmt::Result {
        f.write_str(self.text())
    }
}

// It is shown as it is printed.
impl fmt::Debug for RowError {
    fn fmt<W: fmt::Write>(&self, f: &mut fmt::Formatter<W>) -> fmt::Result {
        f.write_str(self.text())
    }
}

impl Error for RowError {}

impl From<AllocError> for RowError {
    fn from(_error: AllocError) -> RowError {
        RowError::NoMemory
    }
}

impl<T: Drop> From<AllocFailed<T>> for RowError {
    fn from(_refused: AllocFailed<T>) -> RowError {
        RowError::NoMemory
    }
}

impl From<FileFault> for RowError {
    fn from(_fault: FileFault) -> RowError {
        RowError::File
    }
}
