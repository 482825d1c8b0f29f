//! Facts of extents: lemmas over the words of `extent_words`.
//!
//! Which disk blocks the extents of a map have and what a change makes of them (`Covers`), how many
//! blocks a map has, counted block by block (`Counts`), that a map has one spelling (`Spelling`), and
//! look-ups in a list of extents (`Facts`). The maps, the pool and the facts of images cite them.
