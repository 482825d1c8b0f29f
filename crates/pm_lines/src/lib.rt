//! A persistent memory that can lose its power at any moment.
//!
//! A `Pm` is a list of 8-byte words. A store gives a word a second candidate, a flush marks the
//! present candidates of a line's eight words, and a fence drops each candidate that is older than a
//! marked one. A power loss leaves one candidate of each word. Every store, flush and fence takes one
//! step from a `Power`, and does nothing where none is left: so what a call promises "for every power"
//! is promised of a loss at any moment within it.
//!
//! The layer above may rely on the exact cells after every call, for every power. A block can be lent
//! as a `Loan`, and a line taken out as a `Line`: each is a memory of its own until it is put back.
//!
//! It stands on `pm_model`, which has the cells and the words that the contracts cite, and on
//! `rand_xoshiro` for the draws of a choice by a seed.
#![tactic(auto)]

mod cells;
mod choices;
mod chosen;
mod devices;
mod images;
mod lines;
mod loans;
mod pairs;
mod parts;
mod powers;
mod words;

pub use choices::Choice;
pub use devices::Pm;
pub use lines::Line;
pub use loans::Loan;
pub use powers::Power;
