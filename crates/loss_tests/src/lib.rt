//! Scripts through the top call that lose their power.
//!
//! Each table is in the language of `test_kit`, run by `split_tables`: the replies and the trees are known from elsewhere, as its
//! remarks say. With `losses every N` a script is run again with a loss after each so many steps, each with five choices of what
//! the medium has; what is left must be permitted in each of the modes that its option `modes` names. A test has a minute, on a
//! machine that may be slow: where it would take long, some tests have the same row, and each a part of the losses (`parts`).
//! `overwrites` has what sync mode alone does, `drawn` scripts that are drawn from a seed, `rounds` rounds that end while calls are in
//! flight, and `seeds` eight threads by forty seeds, and by ten in sync mode.
//!
//! What is tested is shown alone. Stands on `split_tables` and `test_kit`.
#![tactic(auto)]

#[cfg(test)]
mod databases;
#[cfg(test)]
mod drawing;
#[cfg(test)]
mod drawn;
#[cfg(test)]
mod laps;
#[cfg(test)]
mod names;
#[cfg(test)]
mod overwrites;
#[cfg(test)]
mod parts;
#[cfg(test)]
mod rounds;
#[cfg(test)]
mod seeds;
#[cfg(test)]
mod writes;
