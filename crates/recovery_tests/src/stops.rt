//! Runs that lose their power, judged with the calls that the machine hands out as unfinished.
ghost use Rattle.std.specs.Prelude.{◌≢◌};
ghost use Rattle.posix_spec.specs.posix_types.declared.call.Mode.{Mode};

use crate::images::{CHOICES, copied, fresh};
use command_line::{Options, plain_options};
use crash_judge::judge;
use image_layout::Geometry;
use pm_lines::Choice;
use posix_spec::{Mode, Shape, Tree, root_alone};
use split_cases::rows;
use split_tables::{Case, Ran, Stops, run_image};
use std::alloc::Global;

const SMALL: &str = "64 4 16 16";

// The word of a mode; the place of a worked run among `split_cases::rows`; every how many steps the power goes; and how many calls are unfinished at
// some of these losses, or more.
type Row = (&'static str, usize, u64, usize);

// Without what cuts them. Of the scripts with two threads the threads come in turn.
const ROWS: [Row; 9] = [
    // One directory.
    ("strict", 1, 1, 1),
    // A hole in the log.
    ("strict", 5, 13, 2),
    // A new lap.
    ("strict", 6, 13, 1),
    // An overwrite over the border of two blocks.
    ("strict", 7, 13, 1),
    ("sync", 7, 13, 1),
    // An unlinked file that is written.
    ("strict", 10, 13, 1),
    // A rename over a busy file.
    ("strict", 11, 13, 1),
    // A truncate, and a file that grows.
    ("strict", 13, 13, 1),
    ("sync", 13, 13, 1),
];

// Two writes to one file, which is busy while one of them is out.
const TWO_WRITES: &str =
    "setup\nopen a /f wac\nopen b /f wac\nthread\nwrite a 616263\nthread\nwrite b 7879\n";

// Two writes in sync mode that begin before the block of their file's end: both write in place when they finish.
const TWO_FRONTS: &str = "\
setup
open x /x wc
write x 61*5000
open y /y wc
write y 63*5000
thread
pwrite x 4000 62*1090
thread
pwrite y 3000 64*2090
";

// The shape of the image.
fn shape() -> Option<Shape> {
    let geometry = Geometry::checked(64, 4, 16, 16)?;
    Some(geometry.shape())
}

// The mode that a word of these rows names.
fn mode_of(word: &str) -> Mode
    ensures { result ≢ Mode.Posix }
{
    if word == "sync" {
        Mode::Sync
    } else {
        Mode::Strict
    }
}

// What a script leaves on an image in a mode where the power goes after so many steps.
fn ran(
    alloc: Global,
    mode: &str,
    image: &[u8],
    script: &str,
    steps: u64,
    choice: Choice,
) -> Option<Ran> {
    let options = Options {
        stop: Some(steps),
        choice,
        ..plain_options(mode_of(mode))
    };
    run_image(alloc, copied(alloc, image), script.as_bytes(), &options).ok()
}

// Whether the mode permits what is left behind a tree to begin with.
fn is_permitted(alloc: Global, mode: &str, shape: Shape, start: &Tree, ran: &Ran) -> bool {
    let (history, unfinished) = (&ran.history, &ran.unfinished);
    judge(
        alloc,
        mode_of(mode),
        shape,
        start,
        history,
        unfinished,
        &ran.tree,
    )
    .unwrap_or(false)
}

// Whether the mode permits what is left.
fn is_judged(alloc: Global, mode: &str, ran: &Ran) -> bool {
    match (shape(), root_alone(alloc)) {
        (Some(shape), Ok(start)) => is_permitted(alloc, mode, shape, &start, ran),
        _ => false,
    }
}

// How many calls are unfinished where the power goes after so many steps; none where something is left that the mode forbids.
fn unfinished_at(
    alloc: Global,
    mode: &str,
    image: &[u8],
    script: &str,
    steps: u64,
    choice: Choice,
) -> Option<usize> {
    let ran = ran(alloc, mode, image, script, steps, choice)?;
    is_judged(alloc, mode, &ran).then_some(ran.unfinished.len())
}

// How many they are at most, with each choice.
fn most_at(alloc: Global, mode: &str, image: &[u8], script: &str, steps: u64) -> Option<usize> {
    let mut most: usize = 0;
    for choice in &CHOICES {
        most = most.max(unfinished_at(alloc, mode, image, script, steps, *choice)?);
    }
    Some(most)
}

// How many they are at most, at one of the losses until the last one.
fn most_until(
    alloc: Global,
    mode: &str,
    image: &[u8],
    script: &str,
    every: u64,
    last: u64,
) -> Option<usize> {
    let mut most: usize = 0;
    let mut steps: u64 = 0;
    for _ in 0..100_000_u64 {
        if steps > last {
            return Some(most);
        }
        most = most.max(most_at(alloc, mode, image, script, steps)?);
        steps = steps.saturating_add(every);
    }
    None
}

// The last loss of a script, which is at the end of the unmount.
fn last_stop(alloc: Global, mode: &str, script: &str, every: u64) -> Option<u64> {
    let case = Case::new(alloc, mode, SMALL, script).ok()?;
    let stops = Stops::of_all(alloc, &case, 0, every)?;
    Some(stops.last)
}

// Whether each of the losses of a script, until the last one, leaves what the mode permits, and one of them so many calls unfinished.
fn is_right_until(
    alloc: Global,
    mode: &str,
    script: &str,
    every: u64,
    last: u64,
    unfinished: usize,
) -> bool {
    let image = fresh(alloc, SMALL);
    match most_until(alloc, mode, &image, script, every, last) {
        Some(most) => most >= unfinished,
        None => false,
    }
}

// Likewise of all losses of a script.
fn is_right(alloc: Global, mode: &str, script: &str, every: u64, unfinished: usize) -> bool {
    match last_stop(alloc, mode, script, every) {
        Some(last) => is_right_until(alloc, mode, script, every, last, unfinished),
        None => false,
    }
}

// Whether those of a row are right.
fn is_row_right(alloc: Global, row: &Row) -> bool {
    let (mode, place, every, unfinished) = *row;
    let script = rows().get(place).copied().unwrap_or("");
    is_right(alloc, mode, script, every, unfinished)
}

// The place of the first row whose losses are not right.
fn wrong_row(alloc: Global) -> Option<usize> {
    for (place, row) in ROWS.iter().enumerate() {
        if !is_row_right(alloc, row) {
            return Some(place);
        }
    }
    None
}

#[test]
fn losses_with_the_calls_of_the_machine(rt: HostRuntime) {
    assert_eq!(rt; wrong_row(rt.alloc()), None);
}

#[test]
fn losses_while_a_file_is_busy(rt: HostRuntime) {
    assert!(rt; is_right(rt.alloc(), "strict", TWO_WRITES, 13, 1));
}

#[test]
fn losses_while_two_writes_finish_in_place(rt: HostRuntime) {
    assert!(rt; is_right(rt.alloc(), "sync", TWO_FRONTS, 31, 2));
}
