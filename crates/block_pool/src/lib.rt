//! The free blocks of a device.
//!
//! A pool says of each block of a range whether it is free. Contracts see a `Pool` as a `FreeSet`:
//! the first block of the range and a mark for each block. They read it block by block, by
//! `is_free_at`, and by `free_count`, the number of free blocks.
//!
//! The layer above may rely on this: `take` answers the lowest free blocks, in rising order, and
//! takes nothing but these; it answers None exactly where fewer are free; where memory is short,
//! the pool is as before. `give` takes no memory.
//!
//! The marks are the bits of 64-bit words, so `take` passes over 64 used blocks at a time. It
//! stands on `extent_map` for the extents that are used at the start.
#![tactic(auto)]

mod bits;
mod blocks;
mod pool;

pub use pool::Pool;
