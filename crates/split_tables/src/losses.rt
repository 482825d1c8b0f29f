//! A script with a power loss, and whether the mode permits what is left.
use crate::cases::Case;
use crate::scripts::printed;
use crate::stops::{Stops, Unit};
use crash_judge::judge;
use posix_spec::{Call, Mode, Tree, Who, root_alone};
use std::alloc::{AllocError, Global};
use test_kit::{Text, read_tree};

// What a run with a loss printed: how many calls of the history, and the text behind them, which is not whole where it was not run.
#[derive(Drop)]
pub(crate) struct Outcome {
    pub(crate) returned: usize,
    rest: Text,
}

// What the medium has after a loss: four simple choices, and one that is drawn from a seed.
pub const CHOICES: [&str; 5] = ["oldest", "newest", "even", "odd", "7"];

// How many lines of the history an output begins with, and what follows them.
fn front<'a>(case: &Case, output: &'a str) -> (usize, &'a str) {
    let mut rest = output;
    let mut count: usize = 0;
    for line in &case.lines {
        let Some(left) = rest.strip_prefix(line.as_str()) else {
            break;
        };
        rest = left;
        count = count.saturating_add(1);
    }
    (count, rest)
}

// The words of a loss after so many steps or events, each with a blank in front.
fn put_loss(options: &mut Text, unit: Unit, count: u64, choice: &str) {
    options.put(" ");
    options.put(unit.word());
    options.put(" ");
    options.put_number(count);
    options.put(" choose ");
    options.put(choice);
}

// What is printed where the power goes after so many steps or events.
fn printed_at(alloc: Global, case: &Case, unit: Unit, count: u64, choice: &str) -> Text {
    let mut options = Text::new(alloc);
    put_loss(&mut options, unit, count, choice);
    printed(alloc, case, &options)
}

// How many calls an output has, and the text behind them.
fn outcome_of(alloc: Global, case: &Case, output: &Text) -> Outcome {
    let mut rest = Text::new(alloc);
    let (returned, behind) = front(case, output.as_str());
    rest.put(behind);
    if !output.is_whole() {
        rest.misspell();
    }
    Outcome { returned, rest }
}

// Likewise of that which is printed where the power goes after so many steps or events.
pub(crate) fn outcome_at(
    alloc: Global,
    case: &Case,
    unit: Unit,
    count: u64,
    choice: &str,
) -> Outcome {
    let output = printed_at(alloc, case, unit, count, choice);
    outcome_of(alloc, case, &output)
}

// A tree that is left after so many calls of a case.
#[derive(Clone, Copy)]
struct Left<'a> {
    case: &'a Case,
    returned: usize,
    after: &'a Tree,
}

// Whether a tree is permitted behind one to begin with, with these calls unfinished.
fn is_permitted_from(
    alloc: Global,
    start: &Tree,
    left: &Left<'_>,
    unfinished: &[(Who, Call)],
) -> Result<bool, AllocError> {
    let case = left.case;
    let history = case.items.get(..left.returned).unwrap_or(&[]);
    judge(
        alloc,
        case.mode,
        case.image.shape,
        start,
        history,
        unfinished,
        left.after,
    )
}

// Whether a tree is permitted with these calls unfinished.
fn is_left(alloc: Global, left: &Left<'_>, unfinished: &[(Who, Call)]) -> bool {
    match root_alone(alloc) {
        Ok(start) => is_permitted_from(alloc, &start, left, unfinished).unwrap_or(false),
        Err(_) => false,
    }
}

// Whether a call that comes next is logged where it is not refused. Such calls of several callers may be in flight at once. In sync
// mode a write within its file's length is not: it is one event.
fn is_logged(alloc: Global, left: &Left<'_>, who: Who, call: &Call) -> bool {
    if !matches!(call, Call::Write(..) | Call::Pwrite(..)) {
        return false;
    }
    match left.case.mode {
        Mode::Strict => true,
        Mode::Sync => (left.case)
            .lengthens(alloc, left.returned, who, call)
            .unwrap_or(false),
        Mode::Posix => false,
    }
}

// Of the next calls, which are eight at most, those that are logged.
fn logged_of(alloc: Global, left: &Left<'_>, next: &[(Who, Call)]) -> [bool; 8] {
    let mut logged = [false; 8];
    for (place, (who, call)) in next.iter().enumerate() {
        if place < 8 {
            logged[place] = is_logged(alloc, left, *who, call);
        }
    }
    logged
}

// Adds of the next calls those that are logged and, of the others, the one at this place.
fn add_unfinished(
    calls: &mut Vec<(Who, Call)>,
    next: &[(Who, Call)],
    logged: &[bool; 8],
    other: usize,
) -> Result<(), AllocError> {
    for (place, (who, call)) in next.iter().enumerate() {
        if place == other || logged.get(place) == Some(&true) {
            calls.push((*who, call.clone()?))?;
        }
    }
    Ok(())
}

// Whether a tree is permitted where these are unfinished.
fn is_left_with(
    alloc: Global,
    left: &Left<'_>,
    next: &[(Who, Call)],
    logged: &[bool; 8],
    other: usize,
) -> bool {
    let mut unfinished = Vec::new(alloc);
    add_unfinished(&mut unfinished, next, logged, other).is_ok()
        && is_left(alloc, left, &unfinished)
}

// Whether a tree is permitted. Unfinished may be the next call of each caller: those that are logged, in flight at once, and one of the
// others, which lost its power as it began.
fn is_left_of(alloc: Global, left: &Left<'_>, next: &[(Who, Call)]) -> bool {
    let logged = logged_of(alloc, left, next);
    let mut others: usize = 0;
    for place in 0..next.len() {
        if logged.get(place) != Some(&true) {
            others = others.saturating_add(1);
            if is_left_with(alloc, left, next, &logged, place) {
                return true;
            }
        }
    }
    // Where one of the others was tried, so was none of them.
    others == 0 && is_left(alloc, left, next)
}

// Whether a tree is permitted after so many calls.
fn is_tree_left(alloc: Global, case: &Case, returned: usize, after: &Tree) -> bool {
    let left = Left {
        case,
        returned,
        after,
    };
    match case.next(alloc, returned) {
        Ok(next) => is_left_of(alloc, &left, &next),
        Err(_) => false,
    }
}

// Whether what is left is a tree that is permitted after the calls that returned.
fn is_judged(alloc: Global, case: &Case, found: &Outcome) -> bool {
    match read_tree(alloc, found.rest.as_str()) {
        Ok(after) => { found.rest.is_whole() && is_tree_left(alloc, case, found.returned, &after) }
        Err(_) => false,
    }
}

/// Whether the mode permits what is left where the power goes after so many steps, and the medium has this choice.
pub fn is_permitted(alloc: Global, case: &Case, steps: u64, choice: &str) -> bool {
    let found = outcome_at(alloc, case, Unit::Step, steps, choice);
    is_judged(alloc, case, &found)
}

/// Whether an output has the calls of a case as the model prints them, and behind them a tree that the mode permits.
pub fn is_output_permitted(alloc: Global, case: &Case, output: &Text) -> bool {
    let found = outcome_of(alloc, case, output);
    found.returned == case.calls() && is_judged(alloc, case, &found)
}

// Whether no caller has a call more than those of a case.
fn has_all_calls(alloc: Global, case: &Case) -> bool {
    match case.next(alloc, case.calls()) {
        Ok(next) => next.is_empty(),
        Err(_) => false,
    }
}

/// Whether an output has the calls of a case as the model prints them, these are all of its script, and behind them is the model's tree.
pub fn is_output_whole(alloc: Global, case: &Case, output: &Text) -> bool {
    let found = outcome_of(alloc, case, output);
    found.rest.is_whole()
        && found.returned == case.calls()
        && case.has_tree(found.returned, &found.rest)
        && has_all_calls(alloc, case)
}

/// How many calls are printed where the power goes behind so many events, and the tree, where the mode permits them.
pub fn left_by_cut(alloc: Global, case: &Case, events: u64, choice: &str) -> Option<(usize, Text)> {
    let found = outcome_at(alloc, case, Unit::Event, events, choice);
    if is_judged(alloc, case, &found) {
        Some((found.returned, found.rest))
    } else {
        None
    }
}

// What the losses of a script showed so far.
#[derive(Drop)]
struct Tried {
    // The outcomes that the mode permits, each once.
    known: Vec<Outcome>,
    // Whether the medium's choice made a difference: the outcomes of `oldest` and `newest` were not the same at some stop.
    differs: bool,
}

// The place of an outcome among those that are known.
fn known_place(known: &[Outcome], found: &Outcome) -> Option<usize> {
    for (place, outcome) in known.iter().enumerate() {
        if outcome.returned == found.returned && outcome.rest.is_same(&found.rest) {
            return Some(place);
        }
    }
    None
}

// The place of an outcome among those that are known, to which it is added; none where the mode forbids it.
fn place_of(alloc: Global, case: &Case, known: &mut Vec<Outcome>, found: Outcome) -> Option<usize> {
    if let Some(place) = known_place(known, &found) {
        return Some(place);
    }
    let place = known.len();
    (is_judged(alloc, case, &found) && known.push(found).is_ok()).then_some(place)
}

// The first choice with which the mode forbids what is left.
fn forbidden_choice(
    alloc: Global,
    case: &Case,
    tried: &mut Tried,
    unit: Unit,
    count: u64,
) -> Option<&'static str> {
    let mut oldest = 0;
    for choice in &CHOICES {
        let found = outcome_at(alloc, case, unit, count, choice);
        let Some(place) = place_of(alloc, case, &mut tried.known, found) else {
            return Some(*choice);
        };
        match *choice {
            "oldest" => oldest = place,
            "newest" => tried.differs = tried.differs || place != oldest,
            _ => {}
        }
    }
    None
}

// Whether a loss before the first step leaves no call, and one of the losses that were tried fewer calls than there are.
fn loses_calls(alloc: Global, case: &Case, tried: &Tried) -> bool {
    let first = outcome_at(alloc, case, Unit::Step, 0, "oldest");
    let mut fewer = false;
    for outcome in &tried.known {
        fewer = fewer || outcome.returned < case.calls();
    }
    first.rest.is_whole() && first.returned == 0 && fewer
}

// Says that a loss leaves something forbidden.
fn put_forbidden(fault: &mut Text, unit: Unit, count: u64, choice: &str) {
    fault.put("forbidden at");
    put_loss(fault, unit, count, choice);
}

// Whether each of these losses leaves what is permitted, with every choice.
fn are_permitted(
    alloc: Global,
    case: &Case,
    tried: &mut Tried,
    stops: &Stops,
    fault: &mut Text,
) -> bool {
    let mut count = stops.first;
    for _ in 0..1_000_000_u64 {
        if count > stops.last {
            return true;
        }
        if let Some(choice) = forbidden_choice(alloc, case, tried, stops.unit, count) {
            put_forbidden(fault, stops.unit, count, choice);
            return false;
        }
        count = count.saturating_add(stops.every);
    }
    false
}

/// Whether these losses, each with every choice, leave what is permitted; and they lose calls; and, where they are one step apart, what
/// the medium has makes a difference. If not, it is said what is wrong. None of them is passed over. The first call of the script has to
/// change something.
pub fn are_right(alloc: Global, case: &Case, stops: &Stops, fault: &mut Text) -> bool {
    let mut tried = Tried {
        known: Vec::new(alloc),
        differs: false,
    };
    if !are_permitted(alloc, case, &mut tried, stops, fault) {
        return false;
    }
    if !loses_calls(alloc, case, &tried) {
        fault.put("nothing is lost");
        return false;
    }
    if stops.every == 1 && !tried.differs {
        fault.put("no choice makes a difference");
        return false;
    }
    true
}

/// Whether these stops leave what is permitted, each with one of the choices in turn.
pub fn are_permitted_in_turn(alloc: Global, case: &Case, stops: &Stops) -> bool {
    let mut known = Vec::new(alloc);
    let mut count = stops.first;
    for turn in 0..1_000_000_usize {
        if count > stops.last {
            return true;
        }
        let found = outcome_at(
            alloc,
            case,
            stops.unit,
            count,
            CHOICES[turn % CHOICES.len()],
        );
        if place_of(alloc, case, &mut known, found).is_none() {
            return false;
        }
        count = count.saturating_add(stops.every);
    }
    false
}
