//! How the program ends.
ghost use Rattle.std.specs.Prelude.{◌≡◌, IfOk};
ghost use Rattle.command_line.specs.Statuses as meaning;

use crate::statuses::file_names::FileName;
use std::alloc::{AllocError, Global};

/// How a call of the program ended.
#[derive(Debug, Drop, PartialEq, Eq)]
pub enum Status {
    /// The job was done, and its output put.
    Done,
    /// The words are no command.
    Usage,
    /// The file of this name, which the command reads, is not there.
    NoSuchFile(FileName),
    /// The image is not a checked one: the first rule that it breaks, and the lowest place at which it breaks it.
    BadImage { rule: u32, place: u64 },
    /// The script is not in the grammar. The line is the first that breaks it, from 1.
    BadScript { line: u32 },
    /// Reading a file failed.
    ReadFault,
    /// Putting the output failed. A front of it may have been put.
    WriteFault,
    /// No memory was left. A front of the output may have been put.
    NoMemory,
}

/// The number that the program ends with: 0 where the job was done, else from 2 to 8.
pub fn exit_number(status: &Status) -> u8
    ensures { result ≡ meaning.exit_number status.now }
{
    match status {
        Status::Done => 0,
        Status::Usage => 2,
        Status::NoSuchFile(_) => 3,
        Status::BadImage { .. } => 4,
        Status::BadScript { .. } => 5,
        Status::ReadFault => 6,
        Status::WriteFault => 7,
        Status::NoMemory => 8,
    }
}

/// The line for a file that is not there.
fn missing_text(alloc: Global, name: &[u8]) -> Result<Vec<u8>, AllocError>
    ensures { IfOk result (λ text. text.items ≡ meaning.status_text (Status.NoSuchFile name.now)) }
{
    let mut text = Vec::from_slice(alloc, b"splitfs: no such file ")?;
    text.extend_from_slice(name)?;
    text.push(b'\n')?;
    Ok(text)
}

/// The line for an image that breaks a rule.
fn bad_image_text(alloc: Global, rule: u32, place: u64) -> Result<Vec<u8>, AllocError>
    ensures { IfOk result (λ text. text.items ≡ meaning.status_text (Status.BadImage rule place)) }
{
    let text = format!(in alloc; "splitfs: bad image: rule {rule} at {place}\n")?;
    Ok(text.into_bytes())
}

/// The line for a script that is not in the grammar.
fn bad_script_text(alloc: Global, line: u32) -> Result<Vec<u8>, AllocError>
    ensures { IfOk result (λ text. text.items ≡ meaning.status_text (Status.BadScript line)) }
{
    let text = format!(in alloc; "splitfs: bad script: line {line}\n")?;
    Ok(text.into_bytes())
}

/// The line on standard error; empty where the job was done.
pub fn status_text(alloc: Global, status: &Status) -> Result<Vec<u8>, AllocError>
    ensures { IfOk result (λ text. text.items ≡ meaning.status_text status.now) }
{
    match status {
        Status::Done => Ok(Vec::new(alloc)),
        Status::Usage => Vec::from_slice(alloc, b"splitfs: usage\n"),
        Status::NoSuchFile(name) => missing_text(alloc, &name.bytes),
        Status::BadImage { rule, place } => bad_image_text(alloc, *rule, *place),
        Status::BadScript { line } => bad_script_text(alloc, *line),
        Status::ReadFault => Vec::from_slice(alloc, b"splitfs: read failed\n"),
        Status::WriteFault => Vec::from_slice(alloc, b"splitfs: write failed\n"),
        Status::NoMemory => Vec::from_slice(alloc, b"splitfs: no memory\n"),
    }
}
