//! How many steps a mount takes: where there is nothing to carry out, they do not depend on the number of files.
use crate::images::{no_files, read, run, steps_of};
use outside::{Files, MemFiles};
use std::alloc::Global;
use test_kit::Text;

// A script that makes so many files of one block.
fn put_script(text: &mut Text, count: u64) {
    for file in 0..count {
        text.put("open a /f");
        text.put_number(file);
        text.put(" wc\nwrite a 61\nclose a\n");
    }
}

// The image that a run of a script leaves among files, of 96 blocks.
fn image_in(alloc: Global, files: &mut MemFiles, script: &str) -> Vec<u8> {
    let _is_there = files.replace("S", script.as_bytes());
    run(alloc, files, "mkfs g 96 16 32 32");
    run(alloc, files, "step g S strict keep h");
    read(alloc, files, "h")
}

// An image of 96 blocks with so many files of one block, as a mount leaves it.
fn image_of(alloc: Global, count: u64) -> Vec<u8> {
    let mut files = no_files(alloc);
    let mut script = Text::new(alloc);
    put_script(&mut script, count);
    image_in(alloc, &mut files, script.as_str())
}

// How many steps the mount of such an image takes.
fn steps_with(alloc: Global, count: u64) -> u64 {
    let image = image_of(alloc, count);
    steps_of(alloc, &image)
}

// Whether they are some, and as many with one file and with twenty.
fn are_the_same(alloc: Global) -> bool {
    let none = steps_with(alloc, 0);
    none > 0 && steps_with(alloc, 1) == none && steps_with(alloc, 20) == none
}

#[test]
fn steps_of_a_mount(rt: HostRuntime) {
    assert!(rt; are_the_same(rt.alloc()));
}
