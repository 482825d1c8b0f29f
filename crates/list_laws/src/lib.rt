//! Laws of lists: members, filters, orders, sums, and numbers that are given out once.
//!
//! Lemmas alone, over lists of anything; every crate of laws above cites them in place of an
//! induction of its own.
//!
//! - `lists`: Facts of lists: members, filters and orders, over lists of anything.
//! - `sums`: Sums over the views of those who share something, and numbers that are given out once.
//!
//! Stands on nothing.
#![tactic(auto)]

mod lists;
mod sums;
