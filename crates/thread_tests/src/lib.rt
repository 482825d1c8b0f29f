//! Scripts that are run by threads of the machine: the command `run`, through the top call over files in memory.
//!
//! Which of the calls return first is the threads' choice, so that a run is judged by its own output: its lines have to be those that the
//! plain model of the calls prints for these calls in this order, and the tree behind them has to be the model's, or, where the power went,
//! one that the mode permits with the next call of each caller unfinished. So each test says the same whatever the threads do.
//!
//! `one_file` has two threads that append 100 records each to one file, with few steps and with more than enough; `meeting` two that meet in
//! the gate, outside the turn; `eight` eight threads on one file and on eight, also over a log of four lines, with twenty stops each;
//! `losses` a thread and a set-up of which the own power goes; `beside` and `rounds` the scripts of the schedules' and the losses' tests; and
//! `words` those that need no thread.
//!
//! That two threads run at once, and where the gate is called, is shown here alone; that the threads get on is not promised, and a run that
//! does not end is stopped by the tests' time. Stands on `split_tables`, whose judge it asks and by which it reaches the top call.
#![tactic(auto)]

#[cfg(test)]
mod beside;
#[cfg(test)]
mod eight;
#[cfg(test)]
mod losses;
#[cfg(test)]
mod meeting;
#[cfg(test)]
mod one_file;
#[cfg(test)]
mod rounds;
#[cfg(test)]
mod running;
#[cfg(test)]
mod words;
#[cfg(test)]
mod writing;
