//! Whole scripts and commands through the top call.
//!
//! Each table is in the language of `test_kit`, run by `split_tables`: the replies and the trees are known from elsewhere, as its
//! remarks say. `names` and `changes` have scripts of calls on names; `images`, `runs` and `replays` have sessions of commands on
//! images that are made, damaged, run and kept; `worked` has the worked runs, whose scripts are `split_cases::rows`;
//! `schedules` has scripts of several threads, `loads` the scripts and the sums of loads. Scripts that lose their power stand in
//! `loss_tests`.
//!
//! What is tested is shown alone. Stands on `split_tables`, `split_cases` and `test_kit`.
#![tactic(auto)]

#[cfg(test)]
mod asserting;
#[cfg(test)]
mod changes;
#[cfg(test)]
mod images;
#[cfg(test)]
mod loads;
#[cfg(test)]
mod names;
#[cfg(test)]
mod replays;
#[cfg(test)]
mod runs;
#[cfg(test)]
mod schedules;
#[cfg(test)]
mod worked;
