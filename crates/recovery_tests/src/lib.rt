//! What is left where power, files, memory's images or the sink fail once, in turn.
//!
//! `again` cuts the mounts behind a run by the option of that name, and `stops` the runs themselves, judged with the calls that the
//! machine hands out as unfinished. `faults` lets each call on files and sink fail once, and `lengths` cuts an image to each number of
//! blocks. `edges` has images at the edges of what is allowed: high bases of the log, pending journals of each size, and live entries that
//! leave just the blocks that they need; each is mounted, cut at every step and mounted again. `steps` counts the steps of a mount.
//!
//! What is tested is shown alone. Stands on `split_tables`, which hands on `run_image` and `remount_image` of `split_top`, on the worked
//! runs of `split_cases` and on `test_kit`.
#![tactic(auto)]

#[cfg(test)]
mod again;
#[cfg(test)]
mod edges;
#[cfg(test)]
mod faults;
#[cfg(test)]
mod images;
#[cfg(test)]
mod journals;
#[cfg(test)]
mod lengths;
#[cfg(test)]
mod steps;
#[cfg(test)]
mod stops;
