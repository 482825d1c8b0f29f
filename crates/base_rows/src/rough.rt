//! Readers and writers that are interrupted, that fail, and that hold what is not flushed.
use outside::{OutSink, ReadFault, Sink, read_whole};
use std::alloc::Global;
use std::io;
use std::io::{ErrorKind, Read, Write};

// How an object ends its calls: the one of this number, counted from 1, fails with an error of this
// kind.
#[derive(Clone, Copy)]
struct Rough {
    calls: u8,
    fails_at: u8,
    kind: ErrorKind,
}

impl Rough {
    fn new(fails_at: u8, kind: ErrorKind) -> Rough {
        Rough {
            calls: 0,
            fails_at,
            kind,
        }
    }

    fn call(&mut self) -> io::Result<()> {
        self.calls = self.calls.saturating_add(1);
        if self.calls == self.fails_at {
            Err(io::Error::from(self.kind))
        } else {
            Ok(())
        }
    }
}

// A reader of some bytes, one a call.
#[derive(Drop)]
struct RoughReader {
    left: u8,
    rough: Rough,
}

impl Read for RoughReader {
    fn read(&mut self, buf: &mut [u8]) -> io::Result<usize> {
        self.rough.call()?;
        if self.left == 0 || buf.is_empty() {
            return Ok(0);
        }
        buf[0] = self.left;
        self.left -= 1;
        Ok(1)
    }
}

// Whether a reader of three bytes is read whole, or gives an error of this kind, where one of its calls fails so.
fn is_read(alloc: Global, fails_at: u8, kind: ErrorKind, error: Option<ErrorKind>) -> bool {
    let mut reader = RoughReader {
        left: 3,
        rough: Rough::new(fails_at, kind),
    };
    match read_whole(alloc, &mut reader) {
        Ok(bytes) => error.is_none() && bytes.len() == 3,
        Err(ReadFault::Broken(kind)) => error == Some(kind),
        Err(ReadFault::TooLong) => false,
    }
}

// Whether a call that is interrupted is made again, and one that fails gives its failure.
fn are_read(alloc: Global, fails_at: u8) -> bool {
    let late = ErrorKind::TimedOut;
    is_read(alloc, fails_at, ErrorKind::Interrupted, None)
        && is_read(alloc, fails_at, late, Some(late))
}

// The first call with which that is not so.
fn wrong_call(alloc: Global) -> Option<u8> {
    for fails_at in 1..5 {
        if !are_read(alloc, fails_at) {
            return Some(fails_at);
        }
    }
    None
}

#[test]
fn readers_that_fail_once(rt: HostRuntime) {
    assert_eq!(rt; wrong_call(rt.alloc()), None);
}

// A writer that takes one byte a call, and holds what it takes until it is flushed.
#[derive(Drop)]
struct RoughWriter {
    taken: Vec<u8>,
    flushed: usize,
    rough: Rough,
}

impl Write for RoughWriter {
    fn write(&mut self, bytes: &[u8]) -> io::Result<usize> {
        self.rough.call()?;
        match bytes {
            [] => Ok(0),
            [first, ..] => {
                self.taken.push(*first)?;
                Ok(1)
            }
        }
    }

    fn flush(&mut self) -> io::Result<()> {
        self.rough.call()?;
        self.flushed = self.taken.len();
        Ok(())
    }
}

// Which call of a writer fails, and how; whether six bytes are put then, how many of them are taken, and how many of these are flushed.
type Row = (u8, ErrorKind, bool, usize, usize);

const ROWS: [Row; 4] = [
    (3, ErrorKind::Interrupted, true, 6, 6),
    (3, ErrorKind::TimedOut, false, 2, 0),
    (7, ErrorKind::TimedOut, false, 6, 0),
    (9, ErrorKind::TimedOut, true, 6, 6),
];

fn is_put_so(alloc: Global, row: &Row) -> bool {
    let (fails_at, kind, put, taken, flushed) = *row;
    let mut writer = RoughWriter {
        taken: Vec::new(alloc),
        flushed: 0,
        rough: Rough::new(fails_at, kind),
    };
    let is_put = OutSink::new(&mut writer).put(b"/ dir\n").is_ok();
    is_put == put && writer.taken.len() == taken && writer.flushed == flushed
}

// The first row that goes otherwise, counted from 0.
fn wrong_row(alloc: Global) -> Option<usize> {
    for (place, row) in ROWS.iter().enumerate() {
        if !is_put_so(alloc, row) {
            return Some(place);
        }
    }
    None
}

#[test]
fn writers_that_fail_once(rt: HostRuntime) {
    assert_eq!(rt; wrong_row(rt.alloc()), None);
}
