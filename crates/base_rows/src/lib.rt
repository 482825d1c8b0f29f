//! The real files and the real output, of which no clause says all; and the memory beside a plain list
//! of cells.
//!
//! `files` reads and replaces real files, in `/tmp`: a replace has the right bytes, keeps the
//! permissions, leaves nothing beside, and where it fails leaves the file as it was. `rough` has
//! readers and writers of which one call is interrupted or fails: a reader is read whole all the
//! same, or gives its failure, and what a sink puts is flushed.
//!
//! In `turns`, steps that are drawn from a stated seed are taken on a device of two blocks, on a block
//! that is lent and on a line that is out, under powers that last and powers that end, and beside them
//! on a list that has each word as its candidates (`plain`). After each step on the device, and after a
//! part came back, both have the same words, the same power and the same images by each choice: the
//! list is the expected side.
//!
//! What is tested is shown alone. Stands on `outside` and `pm_lines`.
#![tactic(auto)]

#[cfg(test)]
mod files;
#[cfg(test)]
mod plain;
#[cfg(test)]
mod rough;
#[cfg(test)]
mod turns;
