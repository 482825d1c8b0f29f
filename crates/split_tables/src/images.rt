//! Images in memory, made by `mkfs`.
use crate::scripts::fresh;
use image_layout::Geometry;
use posix_spec::{Shape, default_shape};
use std::alloc::Global;
use test_kit::{RowError, small_number, word};

// An image: that of `mkfs` with four numbers, or the fresh default one, and its shape.
#[derive(Drop)]
pub(crate) struct Image {
    // The bytes of an image of its own; none of the default one.
    bytes: Vec<u8>,
    is_default: bool,
    pub(crate) shape: Shape,
}

// One of the numbers of an image.
fn number_at(numbers: &str, place: usize) -> Result<u32, RowError> {
    small_number(word(numbers, place))
}

// The shape of an image with these numbers.
fn shape_of(numbers: &str) -> Result<Shape, RowError> {
    let (blocks, log) = (number_at(numbers, 0)?, number_at(numbers, 1)?);
    let (inodes, names) = (number_at(numbers, 2)?, number_at(numbers, 3)?);
    match Geometry::checked(blocks, log, inodes, names) {
        Some(geometry) => Ok(geometry.shape()),
        None => Err(RowError::Misspelled),
    }
}

impl Image {
    // The image with these numbers; the default one where there are none.
    pub(crate) fn new(alloc: Global, numbers: &str) -> Result<Image, RowError> {
        let is_default = numbers.is_empty();
        let shape = if is_default {
            default_shape()
        } else {
            shape_of(numbers)?
        };
        Ok(Image {
            bytes: fresh(alloc, numbers),
            is_default,
            shape,
        })
    }

    // The bytes of an image of its own.
    pub(crate) fn bytes(&self) -> Option<&[u8]> {
        (!self.is_default).then_some(self.bytes.as_slice())
    }
}
