//! Scripts as long as they may be, and what is printed of a refusal.
use script_text::{ScriptFault, read_script};
use std::alloc::{AllocError, Global};

// Adds a text, so often.
fn add_often(bytes: &mut Vec<u8>, text: &[u8], count: u32) -> Result<(), AllocError> {
    for _ in 0..count {
        bytes.extend_from_slice(text)?;
    }
    Ok(())
}

// Adds the line `mkdir` with a path of so many bytes.
fn add_line(bytes: &mut Vec<u8>, path: u32) -> Result<(), AllocError> {
    bytes.extend_from_slice(b"mkdir /")?;
    add_often(bytes, b"a", path.saturating_sub(1))?;
    Ok(bytes.push(b'\n')?)
}

// Lines of a script: what they are, and how often they stand there.
enum Lines {
    // The line `mkdir` with a path of so many bytes.
    Mkdir(u32),
    // These bytes.
    Bytes(&'static [u8]),
}

fn add_lines(bytes: &mut Vec<u8>, lines: &Lines, count: u32) -> Result<(), AllocError> {
    match lines {
        Lines::Mkdir(path) => {
            for _ in 0..count {
                add_line(bytes, *path)?;
            }
            Ok(())
        }
        Lines::Bytes(text) => add_often(bytes, text, count),
    }
}

// Some lines, how often they stand there, how many blanks stand behind them, how long the text is then, and its first bad line.
type Row = (Lines, u32, u32, usize, Option<u32>);

// 4,096 calls in 4,194,304 bytes, one byte more, and as many empty lines; a line of 400,000 bytes, and one more; a call too many.
const ROWS: [Row; 7] = [
    (Lines::Mkdir(1017), 4096, 0, 4_194_304, None),
    (Lines::Mkdir(1017), 4096, 1, 4_194_305, Some(0)),
    (Lines::Bytes(b"\n"), 4_194_304, 0, 4_194_304, None),
    (Lines::Mkdir(399_994), 1, 0, 400_001, None),
    (Lines::Mkdir(399_995), 1, 0, 400_002, Some(1)),
    (Lines::Bytes(b"#\nlist /\n"), 4096, 0, 36_864, None),
    (Lines::Bytes(b"#\nlist /\n"), 4097, 0, 36_873, Some(8194)),
];

// Whether this is the first bad line of a text; none where it is a script.
fn is_first_bad(alloc: Global, bytes: &[u8], bad: Option<u32>) -> bool {
    match read_script(alloc, bytes) {
        Ok(_) => bad.is_none(),
        Err(ScriptFault::Bad { line }) => bad == Some(line),
        Err(ScriptFault::NoMemory) => false,
    }
}

// Whether the text of a row is as long as it says, and is read so.
fn is_read_so(alloc: Global, row: &Row) -> bool {
    let mut bytes = Vec::new(alloc);
    let is_whole = add_lines(&mut bytes, &row.0, row.1).is_ok()
        && add_often(&mut bytes, b" ", row.2).is_ok();
    is_whole && bytes.len() == row.3 && is_first_bad(alloc, &bytes, row.4)
}

// The place of the first row that is read otherwise.
fn wrong_row(alloc: Global) -> Option<usize> {
    for (place, row) in ROWS.iter().enumerate() {
        if !is_read_so(alloc, row) {
            return Some(place);
        }
    }
    None
}

#[test]
fn the_largest_scripts_are_read(rt: HostRuntime) {
    assert_eq!(rt; wrong_row(rt.alloc()), None);
}

// Whether a refusal is printed so.
fn is_printed(alloc: Global, fault: &ScriptFault, wanted: &str) -> bool {
    match format!(in alloc; "{fault}") {
        Ok(text) => text.as_str() == wanted,
        Err(_) => false,
    }
}

#[test]
fn texts_of_refusals(rt: HostRuntime) {
    let (bad, memory) = (ScriptFault::Bad { line: 6 }, ScriptFault::NoMemory);
    assert!(rt; is_printed(rt.alloc(), &bad, "line 6 breaks the grammar of scripts"));
    assert!(rt; is_printed(rt.alloc(), &memory, "no memory is left"));
}
