//! An image that is cut to each number of blocks, and to a byte less.
use crate::images::{fresh, shows};
use std::alloc::Global;
use test_kit::Text;

// What is told of the front of an image of 64 blocks: rule 1 with its length, or the tree.
fn put_wanted(text: &mut Text, length: usize) {
    if length == 262_144 {
        text.put("/ dir\n");
    } else {
        text.put("splitfs: bad image: rule 1 at ");
        text.put_number(length as u64);
        text.put("\n");
    }
}

fn is_told(alloc: Global, image: &[u8], length: usize) -> bool {
    let front = image.get(..length).unwrap_or(image);
    let mut text = Text::new(alloc);
    put_wanted(&mut text, length);
    text.is_whole() && shows(alloc, front, text.as_str())
}

// Whether what is told is right of so many blocks, and of a byte less.
fn are_told(alloc: Global, image: &[u8], blocks: usize) -> bool {
    let length = blocks.saturating_mul(4096);
    is_told(alloc, image, length) && is_told(alloc, image, length.saturating_sub(1))
}

// The first number of blocks of which it is not, if there is one.
fn wrong_length(alloc: Global, image: &[u8]) -> Option<usize> {
    for blocks in 0..65_usize {
        if !are_told(alloc, image, blocks) {
            return Some(blocks);
        }
    }
    None
}

// Likewise of a fresh image.
fn wrong_of_fresh(alloc: Global) -> Option<usize> {
    let image = fresh(alloc, "64 4 16 16");
    wrong_length(alloc, &image)
}

#[test]
fn each_length_of_an_image(rt: HostRuntime) {
    assert_eq!(rt; wrong_of_fresh(rt.alloc()), None);
}
