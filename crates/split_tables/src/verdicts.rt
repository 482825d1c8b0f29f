//! How a row of a script with power losses goes. What is wrong with it is put into a text, in which nothing stands while all is right.
use crate::cases::Case;
use crate::losses::are_right;
use crate::rows::{Losses, Told, losses_of, told_by};
use crate::stops::{Stops, Unit};
use std::alloc::Global;
use test_kit::{RowError, Text, option};

// Whether the model prints the trees of a row.
fn has_trees(told: &Told, case: &Case) -> bool {
    for (calls, tree) in &told.trees {
        if !case.has_tree(*calls, tree) {
            return false;
        }
    }
    // Behind the last tree that is told nothing changes.
    match told.trees.last() {
        Some((_calls, tree)) => case.has_tree(case.calls(), tree),
        None => false,
    }
}

// The stops that are not those of single calls.
fn stops_of(alloc: Global, losses: &Losses, case: &Case) -> Option<Stops> {
    if losses.to == 0 {
        return Stops::of_all(alloc, case, losses.from, losses.every);
    }
    Some(Stops {
        unit: Unit::Step,
        first: losses.from,
        last: losses.to,
        every: losses.every,
    })
}

// Whether the losses at these stops are right.
fn are_all_right(alloc: Global, case: &Case, stops: Option<Stops>, fault: &mut Text) -> bool {
    match stops {
        Some(stops) => are_right(alloc, case, &stops, fault),
        None => {
            fault.put("no step is the last one");
            false
        }
    }
}

// Whether the losses at steps so many apart are right, where there are some.
fn is_right_apart(alloc: Global, losses: &Losses, case: &Case, fault: &mut Text) -> bool {
    losses.every == 0 || are_all_right(alloc, case, stops_of(alloc, losses, case), fault)
}

// Whether the losses behind events are right, where there are some.
fn is_right_at_cuts(alloc: Global, losses: &Losses, case: &Case, fault: &mut Text) -> bool {
    losses.cuts == 0 || are_right(alloc, case, &Stops::of_events(0, losses.cuts), fault)
}

// Whether the losses at each step of these calls are right.
fn is_right_in_calls(alloc: Global, each: &[u64], case: &Case, fault: &mut Text) -> bool {
    for call in each {
        let stops = Stops::of_call(alloc, case, *call as usize);
        if !are_all_right(alloc, case, stops, fault) {
            return false;
        }
    }
    true
}

// Whether the losses of a row are right.
fn are_losses_right(alloc: Global, losses: &Losses, case: &Case, fault: &mut Text) -> bool {
    is_right_apart(alloc, losses, case, fault)
        && is_right_at_cuts(alloc, losses, case, fault)
        && is_right_in_calls(alloc, &losses.each, case, fault)
}

// The words of a command line that say in which order the threads of a row are picked.
fn put_order(order: &mut Text, row: &str) {
    for word in &["order", "seed"] {
        if let Some(words) = option(row, word) {
            order.put(word);
            order.put(" ");
            order.put(words);
            return;
        }
    }
}

// Whether the model and the run go as a row says.
fn is_run_right(alloc: Global, told: &Told, case: &Case, fault: &mut Text) -> bool {
    if !has_trees(told, case) || !case.has_history(alloc, &told.history) {
        fault.put("the model of the calls answers otherwise");
        return false;
    }
    if !case.runs_as_told(alloc) {
        fault.put("the run answers otherwise");
        return false;
    }
    true
}

// The script of a row, in the mode of a word.
fn case_in(alloc: Global, mode: &str, row: &str, script: &Text) -> Result<Case, RowError> {
    let image = option(row, "image").unwrap_or("");
    let mut order = Text::new(alloc);
    put_order(&mut order, row);
    Case::ordered(alloc, mode, image, script.as_str(), order.as_str())
}

// Whether a script in the mode of a word is right.
fn is_right_in(
    alloc: Global,
    mode: &str,
    row: &str,
    told: &Told,
    losses: &Losses,
    fault: &mut Text,
) -> bool {
    match case_in(alloc, mode, row, &told.script) {
        Ok(case) => {
            is_run_right(alloc, told, &case, fault) && are_losses_right(alloc, losses, &case, fault)
        }
        Err(why) => {
            fault.put_fault(&why);
            false
        }
    }
}

// Whether the script of a row is right in each of its modes. What is wrong is put behind the first mode in which something is.
fn is_told_right(alloc: Global, row: &str, told: &Told, losses: &Losses, fault: &mut Text) -> bool {
    for mode in option(row, "modes").unwrap_or("strict").split(' ') {
        if !is_right_in(alloc, mode, row, told, losses, fault) {
            fault.put(", in the mode ");
            fault.put(mode);
            return false;
        }
    }
    true
}

// Whether a row is right.
fn is_row_right(alloc: Global, row: &str, fault: &mut Text) -> Result<bool, RowError> {
    let losses = losses_of(alloc, row)?;
    let told = told_by(alloc, row)?;
    Ok(is_told_right(alloc, row, &told, &losses, fault))
}

/// How a script with power losses goes: `ok`, or what is wrong. Its options are `modes MODE ..`, the modes in which it is run,
/// one after another (`strict` where none is named); `image BLOCKS LOG INODES NAMES`, the numbers of an image of its own; and
/// `losses` with, as far as they are wanted, `every N`, a loss after each N steps, the first one after none or, with `from N`,
/// so many, the last one at the end of the unmount or, with `to N`, after so many, and `each K ..`, one after each step of the
/// calls with these numbers, from 0; with `cuts N`, one behind each of so many events. A script of several threads has their calls
/// in the order in which they return, each with its caller in front, and the option `order LIST` or `seed N`, or none for turns.
/// The model of the calls, the run and the image that it leaves must all say what the row
/// does, and each loss must be permitted, with five choices of what the medium has. Its losses have to lose calls, and where
/// they are one step apart a choice has to make a difference.
pub fn losses_told(alloc: Global, row: &str) -> Result<String, RowError> {
    let mut told = Text::new(alloc);
    if is_row_right(alloc, row, &mut told)? {
        told.put("ok");
    }
    told.end()
}
