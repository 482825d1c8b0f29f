//! Each call on files and sink in memory that fails once.
use crate::images::{copied, no_files, read, run};
use outside::{Files, MemFiles, MemSink};
use split_tables::put_answer_over;
use std::alloc::Global;
use test_kit::Text;

// No call fails.
const NONE: u64 = 9;

// A command; which call of the files fails, and which of the sink; what is told; and which file is another then.
type Row = (&'static str, u64, u64, &'static str, &'static str);

const MKFS: &str = "mkfs g 64 4 16 16";

const TREE: &str = "tree g";

const STEP: &str = "step g S strict keep h";

const LOAD: &str = "load 1 1 strict";

const READ: &str = "splitfs: read failed\n";

const WRITE: &str = "splitfs: write failed\n";

// The last row of each command has the calls behind its last ones.
const ROWS: [Row; 13] = [
    (MKFS, 0, NONE, WRITE, ""),
    (MKFS, NONE, 0, WRITE, "g"),
    (MKFS, 1, 1, "56 data blocks\n", "g"),
    (TREE, 0, NONE, READ, ""),
    (TREE, NONE, 0, WRITE, ""),
    (TREE, 1, 1, "/ dir\n/d dir\n", ""),
    (STEP, 0, NONE, READ, ""),
    (STEP, 1, NONE, READ, ""),
    (STEP, 2, NONE, WRITE, ""),
    (STEP, NONE, 0, WRITE, "h"),
    (
        STEP,
        3,
        1,
        "0.0 mkdir /a = ok\n/ dir\n/a dir\n/d dir\n",
        "h",
    ),
    (LOAD, NONE, 0, WRITE, ""),
    (
        LOAD,
        0,
        1,
        "calls 1\nrefused 0\nwritten 1645\nfiles 1\nbytes 1645\n",
        "",
    ),
];

// An image with one directory, `/d`, that is kept among files.
fn image_in(alloc: Global, files: &mut MemFiles) -> Vec<u8> {
    let _is_there = files.replace("S", b"mkdir /d\n");
    run(alloc, files, "mkfs g 64 4 16 16");
    run(alloc, files, "step g S strict keep g");
    read(alloc, files, "g")
}

// An image with one directory, `/d`.
fn image(alloc: Global) -> Vec<u8> {
    let mut files = no_files(alloc);
    image_in(alloc, &mut files)
}

fn one(alloc: Global, number: u64) -> Vec<u64> {
    let mut list = Vec::new(alloc);
    let _is_there = list.push(number);
    list
}

// Adds a file with this name and these bytes.
fn add_file(alloc: Global, list: &mut Vec<(String, Vec<u8>)>, name: &str, bytes: &[u8]) {
    if let Ok(name) = name.to_string(alloc) {
        let _is_there = list.push((name, copied(alloc, bytes)));
    }
}

// The image `g`, a script `S`, and some bytes `h`; a call of this number fails.
fn files_of(alloc: Global, image: &[u8], failing: u64) -> MemFiles {
    let mut list = Vec::new(alloc);
    add_file(alloc, &mut list, "g", image);
    add_file(alloc, &mut list, "S", b"mkdir /a\n");
    add_file(alloc, &mut list, "h", b"old bytes");
    MemFiles::new(alloc, list, one(alloc, failing))
}

// Whether just the file of this name, or none, is another than it was.
fn are_as_told(files: &MemFiles, image: &[u8], changed: &str) -> bool {
    let g = files.bytes("g").unwrap_or(b"");
    let script = files.bytes("S").unwrap_or(b"");
    let h = files.bytes("h").unwrap_or(b"");
    let kept = script == b"mkdir /a\n".as_slice();
    kept && (g == image) == (changed != "g") && (h == b"old bytes".as_slice()) == (changed != "h")
}

// Adds what a command puts over these files and a sink of which this call fails.
fn put_over(text: &mut Text, alloc: Global, files: &mut MemFiles, put: u64, command: &str) {
    let mut out = MemSink::new(alloc, one(alloc, put));
    put_answer_over(text, alloc, files, &mut out, command);
}

fn is_as_told(alloc: Global, image: &[u8], row: &Row) -> bool {
    let (command, file_call, put, text, changed) = *row;
    let mut files = files_of(alloc, image, file_call);
    let mut told = Text::new(alloc);
    put_over(&mut told, alloc, &mut files, put, command);
    told.is(text) && are_as_told(&files, image, changed)
}

// The first row that is told otherwise, if there is one, counted from 0.
fn wrong_row(alloc: Global, image: &[u8]) -> Option<usize> {
    for (place, row) in ROWS.iter().enumerate() {
        if !is_as_told(alloc, image, row) {
            return Some(place);
        }
    }
    None
}

// Likewise over an image of its own.
fn wrong_alone(alloc: Global) -> Option<usize> {
    let image = image(alloc);
    wrong_row(alloc, &image)
}

#[test]
fn each_call_fails_once(rt: HostRuntime) {
    assert_eq!(rt; wrong_alone(rt.alloc()), None);
}
