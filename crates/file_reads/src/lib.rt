//! Bytes of files, read over K-Split: what is mapped, and what is staged above it.
//!
//! `read_bytes` answers the bytes of a read, up to the end of the file: a byte lies in the staged block
//! of the last run laid there, else in the block of the map, else it is zero (`bytes_in`). It asks for
//! memory for what it reads alone, builds no copy of the file, and takes no step of the power.
//!
//! The layer above may rely on this: the length is that of the plan (`read_len`), each byte that of the
//! device as it was stored last; what is kept of translations goes on to agree with the map; want of
//! memory is the only error. Each block of the file is readable: it lies in the device and is not lent
//! (`FileCanBeRead`). Other blocks may be lent, as those of writes in flight.
//!
//! Stands on `k_split`, and on the plans of `data_route`.
#![tactic(auto)]

ghost use Rattle.file_reads.specs.Laws.{MapAlone};

mod reads;

pub use reads::read_bytes;

/// Where nothing is staged, the map alone says which block a file block has.
pub fn an_empty_overlay_hides_nothing()
    ensures { MapAlone }
{}

pub use data_route::Collection;
