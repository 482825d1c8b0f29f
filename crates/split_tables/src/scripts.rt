//! Images and scripts through the top call, in memory. An image that cannot be had is empty.
use crate::cases::Case;
use crate::modes::word_of;
use outside::{Files, MemFiles};
use split_sessions::done;
use std::alloc::Global;
use test_kit::Text;

// The same bytes once more.
fn copied(alloc: Global, bytes: &[u8]) -> Vec<u8> {
    Vec::from_slice(alloc, bytes).unwrap_or(Vec::new(alloc))
}

// The bytes of a file.
fn read(alloc: Global, files: &mut MemFiles, name: &str) -> Vec<u8> {
    files.read(alloc, name).unwrap_or(Vec::new(alloc))
}

// Makes the image `I` with these numbers.
fn make(alloc: Global, files: &mut MemFiles, numbers: &str) {
    let mut line = Text::new(alloc);
    line.put("mkfs I ");
    line.put(numbers);
    let _line = done(alloc, files, line.as_str());
}

// The image that `mkfs` makes with these numbers, which are parted by blanks; nothing where there are none.
pub(crate) fn fresh(alloc: Global, numbers: &str) -> Vec<u8> {
    let mut files = MemFiles::new(alloc, Vec::new(alloc), Vec::new(alloc));
    make(alloc, &mut files, numbers);
    read(alloc, &mut files, "I")
}

// Adds a file.
fn add_file(alloc: Global, list: &mut Vec<(String, Vec<u8>)>, name: &str, bytes: &[u8]) {
    if let Ok(name) = name.to_string(alloc) {
        let _is_there = list.push((name, copied(alloc, bytes)));
    }
}

// The script under the name `S`, and the image, if it is one of its own, under the name `I`.
fn files_of(alloc: Global, image: Option<&[u8]>, script: &str) -> MemFiles {
    let mut list = Vec::new(alloc);
    add_file(alloc, &mut list, "S", script.as_bytes());
    if let Some(bytes) = image {
        add_file(alloc, &mut list, "I", bytes);
    }
    MemFiles::new(alloc, list, Vec::new(alloc))
}

// The words `step IMAGE S MODE` of a case, with these options behind them.
fn put_step(line: &mut Text, case: &Case, options: &Text) {
    line.put("step ");
    line.put(if case.image.bytes().is_some() {
        "I"
    } else {
        "-"
    });
    line.put(" S ");
    line.put(word_of(case.mode));
    line.put_text(&case.order);
    line.put_text(options);
}

// What the script of a case prints over files with these options. Where it is not run that is not whole.
fn run(alloc: Global, files: &mut MemFiles, case: &Case, options: &Text) -> Text {
    let mut line = Text::new(alloc);
    put_step(&mut line, case, options);
    done(alloc, files, line.as_str())
}

// What the script of a case prints with these options, each word with a blank in front.
pub(crate) fn printed(alloc: Global, case: &Case, options: &Text) -> Text {
    let mut files = files_of(alloc, case.image.bytes(), case.script.as_str());
    run(alloc, &mut files, case, options)
}

// Whether the script of a case prints this, and leaves an image with this tree.
pub(crate) fn prints(alloc: Global, case: &Case, wanted: &Text, tree: &Text) -> bool {
    let mut files = files_of(alloc, case.image.bytes(), case.script.as_str());
    let mut keep = Text::new(alloc);
    keep.put(" keep H");
    run(alloc, &mut files, case, &keep).is_same(wanted)
        && done(alloc, &mut files, "tree H").is_same(tree)
}

// The options that have the power go after so many steps, and the oldest of the medium's words kept.
fn put_stop(options: &mut Text, steps: u64) {
    options.put(" stop ");
    options.put_number(steps);
    options.put(" choose oldest keep H");
}

// The image that is kept where the power goes after so many steps, and the medium has what is oldest.
pub(crate) fn image_at(alloc: Global, case: &Case, steps: u64) -> Vec<u8> {
    let mut files = files_of(alloc, case.image.bytes(), case.script.as_str());
    let mut options = Text::new(alloc);
    put_stop(&mut options, steps);
    let _output = run(alloc, &mut files, case, &options);
    read(alloc, &mut files, "H")
}
