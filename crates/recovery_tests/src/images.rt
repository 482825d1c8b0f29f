//! Images, commands over them, and mounts that are cut. What cannot be had is empty, and nothing that is looked for stands in it.
use outside::{Files, MemFiles};
use pm_lines::Choice;
use split_tables::{answer, remount_image};
use std::alloc::Global;
use test_kit::Text;

// What the medium has after a loss: four simple choices, and one that is drawn from a seed.
pub(crate) const CHOICES: [Choice; 5] = [
    Choice::Oldest,
    Choice::Newest,
    Choice::Even,
    Choice::Odd,
    Choice::Seed(7),
];

// More steps than any mount has.
pub(crate) const ALL: u64 = 1_000_000_000;

// No files.
pub(crate) fn no_files(alloc: Global) -> MemFiles {
    MemFiles::new(alloc, Vec::new(alloc), Vec::new(alloc))
}

// The same bytes once more.
pub(crate) fn copied(alloc: Global, bytes: &[u8]) -> Vec<u8> {
    Vec::from_slice(alloc, bytes).unwrap_or(Vec::new(alloc))
}

// The bytes of a file.
pub(crate) fn read(alloc: Global, files: &mut MemFiles, name: &str) -> Vec<u8> {
    files.read(alloc, name).unwrap_or(Vec::new(alloc))
}

// Does a command over these files.
pub(crate) fn run(alloc: Global, files: &mut MemFiles, line: &str) {
    let _told = answer(alloc, files, line);
}

// The image that `mkfs` makes with these numbers among files.
fn made(alloc: Global, files: &mut MemFiles, numbers: &str) -> Vec<u8> {
    let mut line = Text::new(alloc);
    line.put("mkfs I ");
    line.put(numbers);
    run(alloc, files, line.as_str());
    read(alloc, files, "I")
}

// The fresh image with these numbers, which are parted by blanks.
pub(crate) fn fresh(alloc: Global, numbers: &str) -> Vec<u8> {
    let mut files = no_files(alloc);
    made(alloc, &mut files, numbers)
}

// Whether this is what `tree` puts for an image, with the text of its status.
pub(crate) fn shows(alloc: Global, image: &[u8], text: &str) -> bool {
    let mut files = no_files(alloc);
    let _is_there = files.replace("I", image);
    answer(alloc, &mut files, "tree I").is(text)
}

// The image that is left where it is mounted once for each of these numbers of steps.
pub(crate) fn left(alloc: Global, image: &[u8], choice: Choice, again: &[u64]) -> Vec<u8> {
    let image = copied(alloc, image);
    remount_image(alloc, image, choice, again).unwrap_or(Vec::new(alloc))
}

// Whether a mount of so many steps leaves this image.
fn leaves(alloc: Global, image: &[u8], steps: u64, whole: &[u8]) -> bool {
    left(alloc, image, Choice::Oldest, &[steps]).as_slice() == whole
}

// The fewest steps with which the mount of an image leaves what it leaves with all.
fn fewest(alloc: Global, image: &[u8], whole: &[u8]) -> u64 {
    let (mut low, mut high) = (0_u64, 65_536_u64);
    for _ in 0..20_u32 {
        let middle = low.midpoint(high);
        if leaves(alloc, image, middle, whole) {
            high = middle;
        } else {
            low = middle.saturating_add(1);
        }
    }
    high
}

// How many steps the mount of an image takes: with fewer it leaves another image than with all. 0 where it cannot be mounted.
pub(crate) fn steps_of(alloc: Global, image: &[u8]) -> u64 {
    let whole = left(alloc, image, Choice::Oldest, &[ALL]);
    if whole.is_empty() {
        0
    } else {
        fewest(alloc, image, &whole)
    }
}

// The number of eight bytes at a place.
pub(crate) fn number_at(bytes: &[u8], place: usize) -> u64 {
    let mut number: u64 = 0;
    for at in 0..8_usize {
        let byte = bytes
            .get(place.saturating_add(7 - at))
            .copied()
            .unwrap_or(0);
        number = number.wrapping_mul(256).wrapping_add(u64::from(byte));
    }
    number
}
