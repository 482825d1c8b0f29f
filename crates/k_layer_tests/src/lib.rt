//! K-Split's maps beside a plain model, and one small case each of the layers below them.
//!
//! `draws` makes a thousand calls, drawn from a seed, by K-Split and by the `model`, which has for
//! each inode a list of disk blocks, and the free blocks and the bytes of all blocks. After each
//! call both have the same reply, maps, lengths, free blocks and bytes; the device is checked by
//! the rules and opened anew. `extents` has maps of extents, `layers` a batch, plans and fences. `overlays` lays
//! drawn runs over each other, and has the plain list of them beside.
//!
//! What is tested is shown alone. Stands on `k_map_tests`, where it is proved that each call may be
//! made.
#![tactic(auto)]

#[cfg(test)]
mod collections;
#[cfg(test)]
mod draws;
#[cfg(test)]
mod extents;
#[cfg(test)]
mod layers;
#[cfg(test)]
mod model;
#[cfg(test)]
mod overlays;
