//! A file system with its history and the calls that had begun, as a row has them.
use crash_judge::judge;
use posix_spec::{Call, Item, Mode, Shape, State, Tree, Who, default_shape, root_alone};
use std::alloc::{AllocError, Global};
use std::test::Fail;
use test_kit::{
    RowError, Text, asked, assert_rows, caller, option, put_call, put_items, put_lines, put_tree,
    read_call, read_tree, small_number, word,
};

// What was done on a fresh file system, the state that it led to, and what had begun.
#[derive(Drop)]
struct Case {
    mode: Mode,
    shape: Shape,
    start: Tree,
    state: State,
    history: Vec<Item>,
    begun: Vec<(Who, Call)>,
}

// The shape that a row begins with.
fn shape_of(row: &str) -> Result<Shape, RowError> {
    match option(row, "shape") {
        None => Ok(default_shape()),
        Some(numbers) => Ok(Shape {
            data_blocks: small_number(word(numbers, 0))?,
            nodes: small_number(word(numbers, 1))?,
            names: small_number(word(numbers, 2))?,
        }),
    }
}

fn mode_of(row: &str) -> Result<Mode, RowError> {
    match option(row, "mode") {
        None => Ok(Mode::Strict),
        Some("sync") => Ok(Mode::Sync),
        Some("posix") => Ok(Mode::Posix),
        Some(_) => Err(RowError::Misspelled),
    }
}

fn case_of(alloc: Global, row: &str) -> Result<Case, RowError> {
    let (mode, shape) = (mode_of(row)?, shape_of(row)?);
    let start = root_alone(alloc)?;
    let state = State::open(alloc, &start, shape, mode)?;
    Ok(Case {
        mode,
        shape,
        start,
        state,
        history: Vec::new(alloc),
        begun: Vec::new(alloc),
    })
}

// Does a call: its item, of this number.
fn item_of(state: &mut State, place: u32, who: Who, call: Call) -> Result<Item, RowError> {
    let outcome = state.apply(who, &call)?;
    Ok(Item {
        who,
        index: place,
        call,
        reply: outcome.reply,
        room: outcome.room,
    })
}

// The number of the next call.
fn next_place(case: &Case) -> u32 {
    u32::try_from(case.history.len()).unwrap_or(u32::MAX)
}

// Makes a call.
fn make(alloc: Global, case: &mut Case, call: &str) -> Result<(), RowError> {
    let (who, call) = caller(call)?;
    let (call, place) = (read_call(alloc, call)?, next_place(case));
    let item = item_of(&mut case.state, place, who, call)?;
    Ok(case.history.push(item)?)
}

// Makes a call, and adds what a history prints of it.
fn put_made(came: &mut Text, alloc: Global, case: &mut Case, call: &str) {
    let place = case.history.len();
    match make(alloc, case, call) {
        Ok(()) => put_items(came, alloc, case.history.get(place..).unwrap_or(&[])),
        Err(fault) => came.put_fault(&fault),
    }
}

// A call begins, and does not return.
fn begin(alloc: Global, case: &mut Case, call: &str) -> Result<(), RowError> {
    let (who, call) = caller(call)?;
    let call = read_call(alloc, call)?;
    Ok(case.begun.push((who, call))?)
}

// The tree of the state, taken from a copy of it, so that copies are tried too.
fn tree_of(state: &State) -> Result<Tree, AllocError> {
    let copy = state.clone()?;
    let tree = copy.tree()?;
    tree.clone()
}

// Adds what is printed of it.
fn put_state(came: &mut Text, alloc: Global, state: &State) {
    match tree_of(state) {
        Ok(tree) => put_tree(came, alloc, &tree),
        Err(_) => came.fall_short(),
    }
}

// Whether the mode permits a tree.
fn is_left(alloc: Global, case: &Case, left: &Tree) -> Result<bool, AllocError> {
    judge(
        alloc,
        case.mode,
        case.shape,
        &case.start,
        &case.history,
        &case.begun,
        left,
    )
}

// Whether the mode permits a tree that is printed so.
fn is_permitted(alloc: Global, case: &Case, text: &str) -> Result<bool, RowError> {
    let left = read_tree(alloc, text)?;
    Ok(is_left(alloc, case, &left)?)
}

// Adds whether the mode permits a tree, by its entries.
fn put_verdict(came: &mut Text, alloc: Global, case: &Case, entries: &str) {
    let mut text = Text::new(alloc);
    put_lines(&mut text, entries);
    match is_permitted(alloc, case, text.as_str()) {
        Ok(true) => came.put("permitted"),
        Ok(false) => came.put("forbidden"),
        Err(fault) => came.put_fault(&fault),
    }
}

// Adds why a call did not begin, if it did not.
fn put_begun(came: &mut Text, alloc: Global, case: &mut Case, call: &str) {
    match begin(alloc, case, call) {
        Ok(()) => {}
        Err(fault) => came.put_fault(&fault),
    }
}

// Does what a line says: adds what is wanted, and what came.
fn follow(came: &mut Text, wanted: &mut Text, alloc: Global, case: &mut Case, line: &str) {
    match asked(line) {
        None => {}
        Some(("tree", entries)) => {
            put_lines(wanted, entries);
            put_state(came, alloc, &case.state);
        }
        Some(("begun", call)) => put_begun(came, alloc, case, call),
        Some(("left", entries)) => {
            wanted.put("permitted");
            put_verdict(came, alloc, case, entries);
        }
        Some(("never", entries)) => {
            wanted.put("forbidden");
            put_verdict(came, alloc, case, entries);
        }
        Some((call, _reply)) => {
            put_call(wanted, next_place(case), line);
            put_made(came, alloc, case, call);
        }
    }
}

// Whether a line is answered as it says. If not, that is put with the answer that came.
fn is_answered(told: &mut Text, alloc: Global, case: &mut Case, line: &str) -> bool {
    let mut came = Text::new(alloc);
    let mut wanted = Text::new(alloc);
    follow(&mut came, &mut wanted, alloc, case, line);
    if came.is_same(&wanted) {
        return true;
    }
    told.put(line);
    told.put(", and not ");
    told.put_text(&came);
    false
}

// Adds how the lines of a row go: `ok`, or the first one that is answered otherwise.
fn put_told(told: &mut Text, alloc: Global, case: &mut Case, row: &str) {
    for line in row.lines() {
        if !is_answered(told, alloc, case, line) {
            return;
        }
    }
    told.put("ok");
}

// Likewise on a fresh file system.
fn put_row(told: &mut Text, alloc: Global, row: &str) {
    match case_of(alloc, row) {
        Ok(mut case) => put_told(told, alloc, &mut case, row),
        Err(fault) => told.put_fault(&fault),
    }
}

// How a row goes.
fn told(alloc: Global, row: &str) -> Result<String, RowError> {
    let mut told = Text::new(alloc);
    put_row(&mut told, alloc, row);
    told.end()
}

// Asserts that a table has so many rows, and that each goes `ok`.
pub(crate) fn assert_told(rt: &HostRuntime, table: &str, count: usize) -> Result<(), Fail> {
    assert_rows(rt, table, count, &told)?;
    Ok(())
}
