//! A script on an image, in the plain model of the calls and through the top call.
use crate::images::Image;
use crate::modes::mode_of;
use crate::scripts::{printed, prints};
use posix_spec::{Call, Item, Mode, Scripts, State, Tree, TreeNode, Who, root_alone};
use std::alloc::{AllocError, Global};
use test_kit::{
    RowError, Text, count_of, next_calls, put_items, put_tree, read_history, scripts_of,
};

/// A script on a fresh image in a mode, and what the model says of its calls in the order in which they return.
#[derive(Drop)]
pub struct Case {
    pub(crate) mode: Mode,
    pub(crate) image: Image,
    pub(crate) script: Text,
    // The words `order LIST` or `seed N` of a script of several threads with a blank in front, or none.
    pub(crate) order: Text,
    scripts: Scripts,
    pub(crate) items: Vec<Item>,
    // The text of each item.
    pub(crate) lines: Vec<Text>,
    // The text of the tree before the first call, and after each.
    trees: Vec<Text>,
}

// Takes a large piece of memory and gives it back. The C library then holds what the many images of a case give back, and not
// the system, in which such runs spent nearly half of their time.
fn hold_memory(alloc: Global) -> Result<(), RowError> {
    let _piece: Vec<u8> = Vec::with_capacity(alloc, 31 << 20)?;
    Ok(())
}

// Adds the calls of a script by the first thread.
fn add_calls(list: &mut Vec<(Who, Call)>, calls: &[Call]) -> Result<(), RowError> {
    for call in calls {
        list.push((Who::Thread(0), call.clone()?))?;
    }
    Ok(())
}

// The calls of the one thread of a script.
fn calls_of(alloc: Global, scripts: &Scripts) -> Result<Vec<(Who, Call)>, RowError> {
    let mut calls = Vec::new(alloc);
    if let Some(list) = scripts.threads.first() {
        add_calls(&mut calls, &list.calls)?;
    }
    Ok(calls)
}

// The calls of a case as a whole run prints them.
fn printed_calls(alloc: Global, case: &Case) -> Result<Vec<(Who, Call)>, RowError> {
    let output = printed(alloc, case, &Text::new(alloc));
    if output.is_whole() {
        read_history(alloc, &case.scripts, output.as_str())
    } else {
        Err(RowError::NotRun)
    }
}

// The calls of a case in the order in which they return: that of the script of one thread, and else that which is printed.
fn course_of(alloc: Global, case: &Case) -> Result<Vec<(Who, Call)>, RowError> {
    if case.scripts.setup.calls.is_empty() && case.scripts.threads.len() <= 1 {
        calls_of(alloc, &case.scripts)
    } else {
        printed_calls(alloc, case)
    }
}

// Does a call of the model: its item.
fn item_of(items: &[Item], state: &mut State, who: Who, call: Call) -> Result<Item, RowError> {
    let outcome = state.apply(who, &call)?;
    Ok(Item {
        who,
        index: count_of(items, who),
        call,
        reply: outcome.reply,
        room: outcome.room,
    })
}

// Adds the text of the last item.
fn add_line(alloc: Global, case: &mut Case) -> Result<(), RowError> {
    let from = case.items.len().saturating_sub(1);
    let mut line = Text::new(alloc);
    put_items(&mut line, alloc, case.items.get(from..).unwrap_or(&[]));
    Ok(case.lines.push(line)?)
}

// Adds the text of a tree.
fn add_tree(alloc: Global, case: &mut Case, tree: &Tree) -> Result<(), RowError> {
    let mut text = Text::new(alloc);
    put_tree(&mut text, alloc, tree);
    Ok(case.trees.push(text)?)
}

// Does a call of the model, and adds its item and its texts.
fn add_call(
    alloc: Global,
    case: &mut Case,
    state: &mut State,
    who: Who,
    call: Call,
) -> Result<(), RowError> {
    let item = item_of(&case.items, state, who, call)?;
    case.items.push(item)?;
    add_line(alloc, case)?;
    add_tree(alloc, case, &state.tree()?)
}

// Does the calls of the case from this state on.
fn add_course(alloc: Global, case: &mut Case, state: &mut State) -> Result<(), RowError> {
    for (who, call) in course_of(alloc, case)? {
        add_call(alloc, case, state, who, call)?;
    }
    Ok(())
}

// How many bytes the files of a tree have.
fn bytes_in(tree: &Tree) -> u64 {
    let mut count: u64 = 0;
    for entry in &tree.entries {
        if let TreeNode::File(data) = &entry.node {
            count = count.saturating_add(data.len() as u64);
        }
    }
    count
}

// How many bytes the files of a state have, of those with a name.
fn bytes_of(state: &State) -> Result<u64, AllocError> {
    let tree = state.tree()?;
    Ok(bytes_in(&tree))
}

// Whether a write makes its file longer, if that has a name. (No tree shows one that has none.)
fn lengthens(state: &mut State, who: Who, call: &Call) -> Result<bool, AllocError> {
    let before = bytes_of(state)?;
    let _outcome = state.apply(who, call)?;
    Ok(bytes_of(state)? > before)
}

// Does these calls of the model.
fn do_all(state: &mut State, items: &[Item]) -> Result<(), AllocError> {
    for item in items {
        let _outcome = state.apply(item.who, &item.call)?;
    }
    Ok(())
}

// Does the calls that an output has, in its order.
fn add_history(
    alloc: Global,
    case: &mut Case,
    state: &mut State,
    output: &str,
) -> Result<(), RowError> {
    for (who, call) in read_history(alloc, &case.scripts, output)? {
        add_call(alloc, case, state, who, call)?;
    }
    Ok(())
}

// Says what the model says of the calls that an output has, from this tree on.
fn tell_history(alloc: Global, case: &mut Case, root: &Tree, output: &str) -> Result<(), RowError> {
    add_tree(alloc, case, root)?;
    let mut state = State::open(alloc, root, case.image.shape, case.mode)?;
    add_history(alloc, case, &mut state, output)
}

// Says what the model says of the script, from this tree on.
fn tell_from(alloc: Global, case: &mut Case, root: &Tree) -> Result<(), RowError> {
    add_tree(alloc, case, root)?;
    let mut state = State::open(alloc, root, case.image.shape, case.mode)?;
    add_course(alloc, case, &mut state)
}

// Says what the model says of the script.
fn tell(alloc: Global, case: &mut Case) -> Result<(), RowError> {
    let root = root_alone(alloc)?;
    tell_from(alloc, case, &root)
}

// The text with a blank in front; none of an empty one.
fn with_blank(alloc: Global, words: &str) -> Text {
    let mut text = Text::new(alloc);
    if !words.is_empty() {
        text.put(" ");
        text.put(words);
    }
    text
}

// A script of which nothing is said yet.
fn untold(
    alloc: Global,
    mode: Mode,
    image: Image,
    scripts: Scripts,
    script: &str,
    order: &str,
) -> Case {
    let mut text = Text::new(alloc);
    text.put(script);
    Case {
        mode,
        image,
        script: text,
        order: with_blank(alloc, order),
        scripts,
        items: Vec::new(alloc),
        lines: Vec::new(alloc),
        trees: Vec::new(alloc),
    }
}

// Likewise by the words of a row.
fn begun(
    alloc: Global,
    mode: &str,
    numbers: &str,
    script: &str,
    order: &str,
) -> Result<Case, RowError> {
    let mode = mode_of(mode).ok_or(RowError::Misspelled)?;
    let scripts = scripts_of(alloc, script)?;
    let image = Image::new(alloc, numbers)?;
    Ok(untold(alloc, mode, image, scripts, script, order))
}

impl Case {
    /// A script in the mode of this word, on the image of `mkfs` with these numbers, parted by blanks, or on the default one
    /// where there are none.
    pub fn new(alloc: Global, mode: &str, numbers: &str, script: &str) -> Result<Case, RowError> {
        Case::ordered(alloc, mode, numbers, script, "")
    }

    /// Likewise a script of several threads with an order, `order LIST` or `seed N`, or in turn where it is empty. The model does
    /// the calls in the order in which a whole run prints them.
    pub fn ordered(
        alloc: Global,
        mode: &str,
        numbers: &str,
        script: &str,
        order: &str,
    ) -> Result<Case, RowError> {
        hold_memory(alloc)?;
        let mut case = begun(alloc, mode, numbers, script, order)?;
        tell(alloc, &mut case)?;
        Ok(case)
    }

    /// Likewise a script of which a run had this output: the model does the calls that it has, in its order, which need not be all.
    pub fn printed(
        alloc: Global,
        mode: &str,
        numbers: &str,
        script: &str,
        output: &str,
    ) -> Result<Case, RowError> {
        let mut case = begun(alloc, mode, numbers, script, "")?;
        let root = root_alone(alloc)?;
        tell_history(alloc, &mut case, &root, output)?;
        Ok(case)
    }

    // The next call of each caller behind so many calls.
    pub(crate) fn next(&self, alloc: Global, calls: usize) -> Result<Vec<(Who, Call)>, AllocError> {
        let history = self.items.get(..calls).unwrap_or(&[]);
        next_calls(alloc, &self.scripts, history)
    }

    // The state before the first call.
    fn first_state(&self, alloc: Global) -> Result<State, AllocError> {
        let root = root_alone(alloc)?;
        State::open(alloc, &root, self.image.shape, self.mode)
    }

    // Whether a write of a caller makes its file longer behind so many calls.
    pub(crate) fn lengthens(
        &self,
        alloc: Global,
        calls: usize,
        who: Who,
        call: &Call,
    ) -> Result<bool, AllocError> {
        let mut state = self.first_state(alloc)?;
        do_all(&mut state, self.items.get(..calls).unwrap_or(&[]))?;
        lengthens(&mut state, who, call)
    }

    /// How many calls it has.
    pub fn calls(&self) -> usize {
        self.items.len()
    }

    // Adds what the model prints of the history.
    fn put_history(&self, text: &mut Text) {
        for line in &self.lines {
            text.put_text(line);
        }
    }

    // Whether the model prints this history.
    pub(crate) fn has_history(&self, alloc: Global, history: &Text) -> bool {
        let mut text = Text::new(alloc);
        self.put_history(&mut text);
        text.is_same(history)
    }

    // Whether the model prints this tree after so many calls.
    pub(crate) fn has_tree(&self, calls: usize, tree: &Text) -> bool {
        match self.trees.get(calls) {
            Some(text) => text.is_same(tree),
            None => false,
        }
    }

    // Whether the whole run prints the history and this tree, which is that of the image it leaves.
    fn runs_to(&self, alloc: Global, last: &Text) -> bool {
        let mut text = Text::new(alloc);
        self.put_history(&mut text);
        text.put_text(last);
        prints(alloc, self, &text, last)
    }

    /// Whether the whole run prints what the model does, and leaves an image with the last tree.
    pub fn runs_as_told(&self, alloc: Global) -> bool {
        match self.trees.last() {
            Some(last) => self.runs_to(alloc, last),
            None => false,
        }
    }
}
