//! What a loss leaves is mounted again, with each choice of what the medium has, and judged.
ghost use Rattle.std.specs.Prelude.{◌≢◌};
ghost use Rattle.posix_types.specs.declared.call.Mode.{Mode};
ghost use Rattle.split_machine.specs.run_laws.pm_model.Cells.{AllHome};

use crate::worlds::moments::is_caller;
use crash_judge::judge;
use image_layout::Geometry;
use outside::{Files, MemFiles};
use pm_lines::{Choice, Pm};
use posix_spec::{Tree, root_alone};
use posix_types::Mode;
use split_machine::Crashed;
use split_tables::answer;
use std::alloc::{AllocError, Global};
use test_kit::{RowError, Text, number, option, put_lines, read_tree};

// What the medium has, four simple choices and one that is drawn from a seed, each with the option that has its tree.
const CHOICES: [(&str, Choice); 5] = [
    ("left-oldest", Choice::Oldest),
    ("left-newest", Choice::Newest),
    ("left-even", Choice::Even),
    ("left-odd", Choice::Odd),
    ("left-seed", Choice::Seed(7)),
];

/// The numbers of the image of each row: four lines of the log.
pub(crate) fn numbers() -> Result<Geometry, RowError> {
    Geometry::checked(64, 4, 16, 16).ok_or(RowError::Misspelled)
}

/// The mode of a row: strict mode, where none is named.
pub(crate) fn mode_of(row: &str) -> Mode
    ensures { result ≢ Mode.Posix }
{
    if option(row, "mode") == Some("sync") {
        Mode::Sync
    } else {
        Mode::Strict
    }
}

// The tree of an image, as it is printed once the image was mounted.
fn tree_told(alloc: Global, image: &[u8]) -> Text {
    let mut files = MemFiles::new(alloc, Vec::new(alloc), Vec::new(alloc));
    let _is_there = files.replace("I", image);
    answer(alloc, &mut files, "tree I")
}

// Whether a mode permits a tree behind one to begin with.
fn is_judged(
    alloc: Global,
    mode: Mode,
    left: &Crashed,
    start: &Tree,
    after: &Tree,
) -> Result<bool, RowError> {
    let shape = numbers()?.shape();
    let (history, unfinished) = (&left.history, &left.unfinished);
    Ok(judge(alloc, mode, shape, start, history, unfinished, after)?)
}

// Whether a mode permits a tree.
fn is_tree_permitted(alloc: Global, mode: Mode, left: &Crashed, after: &Tree) -> bool {
    match root_alone(alloc) {
        Ok(start) => is_judged(alloc, mode, left, &start, after).unwrap_or(false),
        Err(_) => false,
    }
}

// Whether a mode permits a tree that is printed so.
fn is_permitted(alloc: Global, mode: Mode, left: &Crashed, text: &Text) -> bool {
    match read_tree(alloc, text.as_str()) {
        Ok(after) => text.is_whole() && is_tree_permitted(alloc, mode, left, &after),
        Err(_) => false,
    }
}

// Whether a row has this tree, if it has one.
fn is_wanted(alloc: Global, row: &str, key: &str, text: &Text) -> bool {
    let mut lines = Text::new(alloc);
    match option(row, key) {
        Some(wanted) => {
            put_lines(&mut lines, wanted);
            lines.is_same(text)
        }
        None => true,
    }
}

// Whether so many calls returned, and just these callers left one unfinished, in their order.
fn are_callers(left: &Crashed, words: &str) -> bool {
    let mut words = words.split(' ');
    let mut are_so = is_count(left.history.len(), words.next().unwrap_or(""));
    for (who, _call) in &left.unfinished {
        are_so = are_so && is_caller(*who, words.next().unwrap_or(""));
    }
    are_so && words.next().is_none()
}

// Whether a number is that of a text.
fn is_count(count: usize, text: &str) -> bool {
    match number(text) {
        Ok(number) => number == count as u64,
        Err(_) => false,
    }
}

// The image of a choice.
fn image_of(alloc: Global, pm: &Pm, choice: Choice) -> Result<Vec<u8>, AllocError>
    requires { AllHome pm.now }
{
    pm.choose(alloc, choice)
}

// Whether what is put of an image is a tree that the mode permits, and that of the row.
fn is_right(alloc: Global, left: &Crashed, row: &str, key: &str, image: &[u8]) -> bool {
    let put = tree_told(alloc, image);
    is_permitted(alloc, mode_of(row), left, &put) && is_wanted(alloc, row, key, &put)
}

// Whether a choice leaves what is right.
fn is_left(alloc: Global, left: &Crashed, row: &str, key: &str, choice: Choice) -> bool
    requires { AllHome left.now.pm }
{
    match image_of(alloc, &left.pm, choice) {
        Ok(image) => is_right(alloc, left, row, key, &image),
        Err(_) => false,
    }
}

/// The option of which what a loss leaves is not as the row says, if there is one: how many calls returned and whose are unfinished
/// (`left 3 0 1`), or the tree of a choice, which the row may name (`left-oldest / dir; ..`) and the mode has to permit.
pub(crate) fn fault_left(alloc: Global, left: &Crashed, row: &str) -> Option<&'static str>
    requires { AllHome left.now.pm }
{
    if !are_callers(left, option(row, "left").unwrap_or("")) {
        return Some("left");
    }
    for (key, choice) in &CHOICES {
        if !is_left(alloc, left, row, key, *choice) {
            return Some(*key);
        }
    }
    None
}
