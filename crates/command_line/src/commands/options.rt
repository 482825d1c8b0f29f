//! The options of a run.
ghost use Rattle.std.specs.Prelude.{◌≡◌, ◌≢◌, true, false, IfOk, IfSome, map, option_map};
ghost use Rattle.std.specs.String.{string_bytes};
ghost use Rattle.command_line.specs.Command.{choice_of, mode_of, options_in, with_again, with_choice, with_cut, with_keep, with_order, with_seed, with_stop};
ghost use Rattle.command_line.specs.Seen.{seen_options};

use crate::commands::orders::OrderWords;
use pm_lines::Choice;
use script_text::{Mode, read_number, read_numbers, spells_numbers};
use std::alloc::{AllocError, Global};

/// The most picks of a list.
const MOST_PICKS: usize = 65_536;

/// The highest number of a thread.
const HIGHEST_THREAD: u64 = 7;

/// The most mounts before the last one.
const MOST_MOUNTS: usize = 8;

/// The highest number that 18 digits spell.
const HIGHEST_NUMBER: u64 = 999_999_999_999_999_999;

/// The options of a run.
#[derive(Drop)]
pub struct Options<'a> {
    /// What a power loss may leave.
    pub mode: Mode,
    /// Whether the threads of the script are those of the machine.
    pub by_threads: bool,
    /// Otherwise, in which order the threads of the script are picked.
    pub order: OrderWords<'a>,
    /// After how many events the power goes.
    pub cut: Option<u64>,
    /// After how many device steps the power goes.
    pub stop: Option<u64>,
    /// After how many device steps the power goes in each mount behind the run but the last: at most 8 numbers, of this word.
    pub again: Option<&'a String>,
    /// Which candidates of words that are not durable a power loss leaves.
    pub choice: Choice,
    /// The name under which the image that is left is kept.
    pub keep: Option<&'a String>,
}

/// Which candidates a power loss leaves, by a word: the name of a choice, or a number for a seed.
fn read_choice(word: &str) -> Option<Choice>
    ensures { result ≡ choice_of word.now }
{
    match word {
        "oldest" => Some(Choice::Oldest),
        "newest" => Some(Choice::Newest),
        "even" => Some(Choice::Even),
        "odd" => Some(Choice::Odd),
        _ => Some(Choice::Seed(read_number(word.as_bytes())?)),
    }
}

/// The mode that a word says, of those that are built.
pub(crate) fn read_mode(word: &str) -> Option<Mode>
    ensures mode { result ≡ mode_of word.now }
    ensures built { IfSome result (λ mode. mode ≢ Mode.Posix) }
{
    match word {
        "strict" => Some(Mode::Strict),
        "sync" => Some(Mode::Sync),
        _ => None,
    }
}

/// The option `keep NAME` beside these, or no more words.
#[tactic(auto, unfolding(crate::specs::Command::with_keep))]
fn with_keep<'a>(options: Options<'a>, words: &'a [String]) -> Option<Options<'a>>
    ensures options { option_map (λ o. seen_options o) result ≡ with_keep (seen_options options.entry) (map string_bytes words.now) }
    ensures mode { IfSome result (λ o. o.mode ≡ options.entry.mode) }
{
    if words.is_empty() {
        return Some(options);
    }
    if words.len() != 2 || words[0].as_str() != "keep" {
        return None;
    }
    Some(Options {
        keep: Some(&words[1]),
        ..options
    })
}

/// The option `choose C` beside these, if it is there, and then the other.
#[tactic(auto, unfolding(crate::specs::Command::with_choice))]
fn with_choice<'a>(options: Options<'a>, words: &'a [String]) -> Option<Options<'a>>
    ensures options { option_map (λ o. seen_options o) result ≡ with_choice (seen_options options.entry) (map string_bytes words.now) }
    ensures mode { IfSome result (λ o. o.mode ≡ options.entry.mode) }
{
    if words.len() < 2 || words[0].as_str() != "choose" {
        return with_keep(options, words);
    }
    let choice = read_choice(words[1].as_str())?;
    with_keep(Options { choice, ..options }, &words[2..])
}

/// The option `again NUMBERS` beside these, if it is there, and then the others.
#[tactic(auto, unfolding(crate::specs::Command::with_again))]
fn with_again<'a>(options: Options<'a>, words: &'a [String]) -> Option<Options<'a>>
    ensures options { option_map (λ o. seen_options o) result ≡ with_again (seen_options options.entry) (map string_bytes words.now) }
    ensures mode { IfSome result (λ o. o.mode ≡ options.entry.mode) }
{
    if words.len() < 2 || words[0].as_str() != "again" {
        return with_choice(options, words);
    }
    if !spells_numbers(words[1].as_bytes(), MOST_MOUNTS, HIGHEST_NUMBER) {
        return None;
    }
    let again = Some(&words[1]);
    with_choice(Options { again, ..options }, &words[2..])
}

/// The option `stop N` beside these, if it is there, and then the others.
#[tactic(auto, unfolding(crate::specs::Command::with_stop))]
fn with_stop<'a>(options: Options<'a>, words: &'a [String]) -> Option<Options<'a>>
    ensures options { option_map (λ o. seen_options o) result ≡ with_stop (seen_options options.entry) (map string_bytes words.now) }
    ensures mode { IfSome result (λ o. o.mode ≡ options.entry.mode) }
{
    if words.len() < 2 || words[0].as_str() != "stop" {
        return with_again(options, words);
    }
    let stop = Some(read_number(words[1].as_bytes())?);
    with_again(Options { stop, ..options }, &words[2..])
}

/// The option `cut E` beside these, if it is there, and then the others.
#[tactic(auto, unfolding(crate::specs::Command::with_cut))]
fn with_cut<'a>(options: Options<'a>, words: &'a [String]) -> Option<Options<'a>>
    ensures options { option_map (λ o. seen_options o) result ≡ with_cut (seen_options options.entry) (map string_bytes words.now) }
    ensures mode { IfSome result (λ o. o.mode ≡ options.entry.mode) }
{
    if words.len() < 2 || words[0].as_str() != "cut" {
        return with_stop(options, words);
    }
    let cut = Some(read_number(words[1].as_bytes())?);
    with_stop(Options { cut, ..options }, &words[2..])
}

/// The option `seed N` beside these, if it is there, and then the others.
#[tactic(auto, unfolding(crate::specs::Command::with_seed))]
fn with_seed<'a>(options: Options<'a>, words: &'a [String]) -> Option<Options<'a>>
    ensures options { option_map (λ o. seen_options o) result ≡ with_seed (seen_options options.entry) (map string_bytes words.now) }
    ensures mode { IfSome result (λ o. o.mode ≡ options.entry.mode) }
{
    if words.len() < 2 || words[0].as_str() != "seed" {
        return with_cut(options, words);
    }
    let order = OrderWords::Seed(read_number(words[1].as_bytes())?);
    with_cut(Options { order, ..options }, &words[2..])
}

/// The options `order LIST` or `seed N` beside these, if one is there, and then the others.
#[tactic(auto, unfolding(crate::specs::Command::with_order))]
fn with_order<'a>(options: Options<'a>, words: &'a [String]) -> Option<Options<'a>>
    ensures options { option_map (λ o. seen_options o) result ≡ with_order (seen_options options.entry) (map string_bytes words.now) }
    ensures mode { IfSome result (λ o. o.mode ≡ options.entry.mode) }
{
    if words.len() < 2 || words[0].as_str() != "order" {
        return with_seed(options, words);
    }
    if !spells_numbers(words[1].as_bytes(), MOST_PICKS, HIGHEST_THREAD) {
        return None;
    }
    let order = OrderWords::List(&words[1]);
    with_cut(Options { order, ..options }, &words[2..])
}

/// The options of a run in a mode that names none.
pub fn plain_options(mode: Mode) -> Options<'static>
    ensures options { seen_options result ≡ options_in mode }
    ensures mode { result.mode ≡ mode }
    ensures events { result.by_threads ≡ false }
{
    Options {
        mode,
        by_threads: false,
        order: OrderWords::Round,
        cut: None,
        stop: None,
        again: None,
        choice: Choice::Oldest,
        keep: None,
    }
}

/// The options of a run in a mode that the words are.
pub(crate) fn read_options(mode: Mode, words: &[String]) -> Option<Options<'_>>
    ensures options { option_map (λ o. seen_options o) result ≡ with_order (options_in mode) (map string_bytes words.now) }
    ensures mode { IfSome result (λ o. o.mode ≡ mode) }
{
    with_order(plain_options(mode), words)
}

/// The options of a run by threads in a mode that the words are: neither an order nor `cut`.
pub(crate) fn read_thread_options(mode: Mode, words: &[String]) -> Option<Options<'_>>
    ensures options { option_map (λ o. seen_options o) result ≡ with_stop (record (options_in mode) { by_threads = true }) (map string_bytes words.now) }
    ensures mode { IfSome result (λ o. o.mode ≡ mode) }
{
    let options = Options {
        by_threads: true,
        ..plain_options(mode)
    };
    with_stop(options, words)
}

/// The steps of each mount behind a run but the last.
pub fn read_again(alloc: Global, options: &Options<'_>) -> Result<Vec<u64>, AllocError>
    ensures { IfOk result (λ steps. steps.items ≡ (seen_options options.now).again) }
{
    let Some(word) = options.again else {
        return Ok(Vec::new(alloc));
    };
    match read_numbers(alloc, word.as_bytes())? {
        Some(numbers) => Ok(numbers),
        None => Ok(Vec::new(alloc)),
    }
}
