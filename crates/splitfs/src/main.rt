//! The program `splitfs`: the real files, the real output and the words of the command line for the top call.
#![tactic(auto)]

ghost use Rattle.std.specs.Prelude.{◌≡◌, ◌≢◌};
ghost use Rattle.command_line.specs.Statuses as meaning;

use command_line::{Status, exit_number, status_text};
use outside::{DiskFiles, OutSink};
use split_top::{OpenGate, top};
use std::io::{ErrorKind, Write};
use std::process::ExitCode;
use std::sync::Wait;
use std::thread::Threads;
use std::{env, io};

/// The words after the program's name. An error of the kind `OutOfMemory` says that memory ran out, and any other one
/// that a word is not UTF-8.
fn words(rt: &HostRuntime) -> io::Result<Vec<String>> {
    let mut words = Vec::new(rt.alloc());
    for word in env::args(rt)?.skip(1) {
        words.push(word)?;
    }
    Ok(words)
}

/// Does the job, with leave to start threads and to wait.
fn job<R: Threads + Wait + Sync>(rt: &HostRuntime, threads: &R) -> io::Result<Status> {
    let words = words(rt)?;
    let mut files = DiskFiles::new(rt.clone()?);
    let mut out = OutSink::new(rt.stdout());
    Ok(top(
        threads,
        rt.alloc(),
        &words,
        &mut files,
        &mut out,
        &OpenGate {},
    ))
}

/// The status where the words were not read: a word that is not UTF-8 is no word of a command.
fn unread(kind: ErrorKind) -> Status
    ensures memory { kind ≡ ErrorKind.OutOfMemory → result ≡ Status.NoMemory }
    ensures usage { kind ≢ ErrorKind.OutOfMemory → result ≡ Status.Usage }
{
    if kind == ErrorKind::OutOfMemory {
        Status::NoMemory
    } else {
        Status::Usage
    }
}

/// Tells the status on standard error.
fn tell(rt: &HostRuntime, status: &Status) -> io::Result<()> {
    let text = status_text(rt.alloc(), status)?;
    rt.stderr().write_all(&text)
}

/// Tells the status, and gives its number, which stays where the text could not be written.
fn end(rt: &HostRuntime, status: &Status) -> u8
    ensures { result ≡ meaning.exit_number status.now }
{
    let _told = tell(rt, status);
    exit_number(status)
}

fn main(rt: HostRuntime) -> ExitCode {
    let status = match job(&rt, &rt) {
        Ok(status) => status,
        Err(error) => unread(error.kind()),
    };
    ExitCode::from(end(&rt, &status))
}
