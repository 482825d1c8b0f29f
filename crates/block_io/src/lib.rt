//! Bytes of blocks on the device: written over in place, set to zero, read; and lines taken out and put back.
//!
//! Wherever the power goes each byte of a range is the old one or the new one, and no other
//! changes; lines that come back bring their words. No call takes memory.
//!
//! - `block_bytes`: Bytes of blocks on the device: written over in place, set to zero, read.
//! - `lines_out`: Lines of a device, taken out in order and put back.
//!
//! `zero_lines` says of each word that it is as it was, or has 0 as its newer candidate, or that all are 0.
//!
//! Stands on `pm_lines`, `extent_map` and `k_split_model`.
#![tactic(auto)]

mod block_bytes;
mod lines_out;

pub use block_bytes::{Move, bytes_are_put, read_block, write_bytes, zero_blocks, zero_lines};
pub use lines_out::{put_lines, take_lines};
