//! What a row of a script with power losses says.
use posix_spec::Who;
use std::alloc::Global;
use test_kit::{RowError, Text, asked, caller, number, option, put_call, put_lines};

// A script, and what it is to print.
#[derive(Drop)]
pub(crate) struct Told {
    pub(crate) script: Text,
    pub(crate) history: Text,
    // The text of the tree after so many calls.
    pub(crate) trees: Vec<(usize, Text)>,
    calls: usize,
    setup: Part,
    threads: Vec<Part>,
}

// The lines of one caller, and how many they are.
#[derive(Drop)]
struct Part {
    lines: Text,
    count: u32,
}

// After how many steps the power goes.
#[derive(Drop)]
pub(crate) struct Losses {
    // How many steps one loss is behind the other; 0 for none.
    pub(crate) every: u64,
    // After how many steps the first one is.
    pub(crate) from: u64,
    // After how many steps the last one is at most; 0 for the end of the unmount.
    pub(crate) to: u64,
    // The calls of which each step is tried.
    pub(crate) each: Vec<u64>,
    // Behind how many events one more loss is, each; 0 for none.
    pub(crate) cuts: u64,
}

// What the numbers behind a word of the option are.
#[derive(Clone, Copy)]
enum Kind {
    Every,
    From,
    To,
    Each,
    Cuts,
}

fn kind_of(word: &str) -> Option<Kind> {
    match word {
        "every" => Some(Kind::Every),
        "from" => Some(Kind::From),
        "to" => Some(Kind::To),
        "each" => Some(Kind::Each),
        "cuts" => Some(Kind::Cuts),
        _ => None,
    }
}

fn add_number(losses: &mut Losses, kind: Kind, number: u64) -> Result<(), RowError> {
    match kind {
        Kind::Every => losses.every = number,
        Kind::From => losses.from = number,
        Kind::To => losses.to = number,
        Kind::Each => losses.each.push(number)?,
        Kind::Cuts => losses.cuts = number,
    }
    Ok(())
}

fn add_numbers(losses: &mut Losses, words: &str) -> Result<(), RowError> {
    let mut kind = Kind::Every;
    for word in words.split(' ') {
        match kind_of(word) {
            Some(other) => kind = other,
            None => add_number(losses, kind, number(word)?)?,
        }
    }
    Ok(())
}

// The losses of a row: `losses every N from N to N each K .. cuts N`, as far as they are wanted.
pub(crate) fn losses_of(alloc: Global, row: &str) -> Result<Losses, RowError> {
    let mut losses = Losses {
        every: 0,
        from: 0,
        to: 0,
        each: Vec::new(alloc),
        cuts: 0,
    };
    if let Some(words) = option(row, "losses") {
        add_numbers(&mut losses, words)?;
    }
    Ok(losses)
}

fn no_lines(alloc: Global) -> Part {
    Part {
        lines: Text::new(alloc),
        count: 0,
    }
}

// Adds a call to the lines of a caller, and tells its number.
fn add_line(part: &mut Part, call: &str) -> u32 {
    let place = part.count;
    part.lines.put_words(call);
    part.lines.put("\n");
    part.count = place.saturating_add(1);
    place
}

// Adds a call to the lines of a thread, and tells its number.
fn add_to_thread(
    alloc: Global,
    threads: &mut Vec<Part>,
    thread: usize,
    call: &str,
) -> Result<u32, RowError> {
    for _more in threads.len()..thread.saturating_add(1) {
        threads.push(no_lines(alloc))?;
    }
    match threads.get_mut(thread) {
        Some(part) => Ok(add_line(part, call)),
        None => Err(RowError::Misspelled),
    }
}

// Adds a call to the lines of its caller, and tells its number.
fn add_to(alloc: Global, told: &mut Told, who: Who, call: &str) -> Result<u32, RowError> {
    match who {
        Who::Setup => Ok(add_line(&mut told.setup, call)),
        Who::Thread(thread) => add_to_thread(alloc, &mut told.threads, thread as usize, call),
    }
}

// Adds a call with its reply.
fn add_call(alloc: Global, told: &mut Told, call: &str, line: &str) -> Result<(), RowError> {
    let (who, call) = caller(call)?;
    let place = add_to(alloc, told, who, call)?;
    put_call(&mut told.history, place, line);
    told.calls = told.calls.saturating_add(1);
    Ok(())
}

// Puts the script together: the lines of the one thread, or those of each caller below a heading.
fn add_script(told: &mut Told) {
    let is_headed = told.setup.count > 0 || told.threads.len() > 1;
    if is_headed {
        told.script.put("setup\n");
        told.script.put_text(&told.setup.lines);
    }
    for part in &told.threads {
        if is_headed {
            told.script.put("thread\n");
        }
        told.script.put_text(&part.lines);
    }
}

// Adds a tree.
fn add_tree(alloc: Global, told: &mut Told, entries: &str) -> Result<(), RowError> {
    let mut tree = Text::new(alloc);
    put_lines(&mut tree, entries);
    Ok(told.trees.push((told.calls, tree))?)
}

// Adds what a line of a row says.
fn add_told(alloc: Global, told: &mut Told, line: &str) -> Result<(), RowError> {
    match asked(line) {
        None => Ok(()),
        Some(("tree", entries)) => add_tree(alloc, told, entries),
        Some((call, _reply)) => add_call(alloc, told, call, line),
    }
}

// Adds what the lines of a row say.
fn add_lines(alloc: Global, told: &mut Told, row: &str) -> Result<(), RowError> {
    for line in row.lines() {
        add_told(alloc, told, line)?;
    }
    add_script(told);
    Ok(())
}

// Nothing is said.
fn untold(alloc: Global) -> Told {
    Told {
        script: Text::new(alloc),
        history: Text::new(alloc),
        trees: Vec::new(alloc),
        calls: 0,
        setup: no_lines(alloc),
        threads: Vec::new(alloc),
    }
}

// What the lines of a row say.
pub(crate) fn told_by(alloc: Global, row: &str) -> Result<Told, RowError> {
    let mut told = untold(alloc);
    add_lines(alloc, &mut told, row)?;
    Ok(told)
}
