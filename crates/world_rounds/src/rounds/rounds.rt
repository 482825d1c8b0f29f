//! A round begins, and ends.
ghost use Rattle.std.specs.Prelude.{◌≡◌, ◌^◌, ◌+◌, ◌*◌, ◌/◌, ◌%◌, ◌≤◌, ◌<◌, [], None, true, false, length, IfOk, OnErr, ℕ, slice_index, vec_len};
ghost use Rattle.std.specs.Vec.{vec_capacity};
ghost use Rattle.world_parts.specs.block_io.Lines.{line_at};
ghost use Rattle.world_parts.specs.pm_model.Cells.{cell, newest};
ghost use Rattle.world_parts.specs.pm_model.Powers.{Steps};
ghost use Rattle.world_parts.specs.Answers.{IsCheckpoint};
ghost use Rattle.world_parts.specs.world_view_laws.Rounds.{IsRoundBegun, MayCheckpoint};
ghost use Rattle.world_parts.specs.Seen.{seen, IsKept};

use crate::job_ends::{Commit, NoMemory, Parts, gather};
use crate::laws;
use pm_lines::{Line, Power};
use std::alloc::Global;

// The words of the lines, line after line, eight each. There is room for them.
fn words_of(room: Vec<u64>, lines: &[Line]) -> Vec<u64>
    requires empty { room.items ≡ [] }
    requires few { length lines.now < 2 ^ 32 }
    requires room { 8 * length lines.now ≤ vec_capacity room }
    ensures count { length result.items ≡ 8 * length lines.now }
    ensures words { (i : ℕ) → i < 8 * length lines.now
        → slice_index result.items i ≡ newest (cell (line_at lines.now (i / 8)).cells (i % 8)) }
{
    let mut words = room;
    for i in 0..8 * lines.len() {
        words.push_reserved(lines[i / 8].read_word((i % 8) as u32));
    }
    words
}

// How many lines the log has.
fn log_lines(p: &Parts) -> usize
    ensures count { result ≡ p.now.geometry.log }
    ensures few { result < 2 ^ 32 }
{
    p.geometry.log as usize
}

// The lines are out, of which these words are kept.
fn keep_words(p: &mut Parts, words: Vec<u64>)
    ensures first { p.new.first.items ≡ words.items }
    ensures rest { p.new ≡ record p.old { first = p.new.first; lines_out = true } }
{
    p.first = words;
    p.lines_out = true;
}

/// The log's lines go out, by rising slot, and their words are kept; with them the base of their sequence numbers.
///
/// # Errors
///
/// Out of memory: no call sees a change.
pub fn begin_lines(p: &mut Parts, alloc: Global) -> Result<(Vec<Line>, u64), NoMemory>
    requires kept { IsKept p.old }
    requires home { p.old.lines_out ≡ false }
    requires awake { p.old.lost ≡ false }
    ensures kept { IsKept p.new }
    ensures begun { IfOk result (λ out. IsRoundBegun (seen p.old) (seen p.new) out.0.items out.1) }
    ensures err { OnErr result (seen p.new ≡ seen p.old) }
{
    laws::log_lines_go_out();
    laws::the_lines_of_a_round_may_go_out();
    let count = log_lines(p);
    let room = Vec::with_capacity(alloc, 8 * count)?;
    let lines = p.k.take_log(alloc)?;
    let _lost = p.k.is_lost();
    let words = words_of(room, &lines);
    keep_words(p, words);
    Ok((lines, p.base))
}

// A checkpoint is done: the next round may begin.
fn go_on(p: &mut Parts)
    requires base { p.old.base + p.old.geometry.log < 2 ^ 64 }
    requires acts { p.old.acts + 1 < 2 ^ 64 }
    ensures claims { p.new.claims.items ≡ [] }
    ensures none { vec_len p.new.claims ≡ 0 }
    ensures next { p.new ≡ record p.old {
      base = p.old.base + p.old.geometry.log;
      settled = length p.old.history.items;
      claims = p.new.claims;
      over = None;
      given_up = 0;
      acts = p.old.acts + 1;
      lines_out = false;
    } }
{
    p.base += u64::from(p.geometry.log);
    p.settled = p.history.len();
    p.claims.clear();
    p.over = None;
    p.given_up = 0;
    p.acts += 1;
    p.lines_out = false;
}

/// The lines come home, all that is staged is published, and the next lap begins.
///
/// # Errors
///
/// Out of memory: the World is only to be dropped.
///
/// # Steps
///
/// At most 2^26.
pub fn end_lines(
    p: &mut Parts,
    alloc: Global,
    lines: Vec<Line>,
    power: &mut Power,
) -> Result<Commit, NoMemory>
    requires kept { IsKept p.old }
    requires awake { p.old.lost ≡ false }
    requires may { MayCheckpoint (seen p.old) lines.items }
    ensures kept { p.new.usable ≡ true → IsKept p.new }
    ensures steps { Steps (2 ^ 26) power.old power.new }
    ensures answer { IsCheckpoint (seen p.old) (seen p.new) power.new result }
{
    laws::the_lines_of_a_round_come_home();
    laws::a_checkpoint_ends_a_round();
    p.k.put_log(lines);
    let _lost = p.k.is_lost();
    match gather(alloc, &mut p.k, &mut p.staging, &mut p.files, power) {
        Err(_) => {
            p.usable = false;
            Err(NoMemory {})
        }
        Ok(Commit::PowerLost) => {
            p.acts += 1;
            p.lines_out = false;
            p.lost = true;
            Ok(Commit::PowerLost)
        }
        Ok(Commit::Done) => {
            go_on(p);
            Ok(Commit::Done)
        }
    }
}

// These lines came home.
fn keep_home(p: &mut Parts, lines: Vec<Line>)
    ensures home { p.new.home.items ≡ lines.items }
    ensures rest { p.new ≡ record p.old { home = p.new.home; lines_out = false } }
{
    p.home = lines;
    p.lines_out = false;
}

/// The power had gone: the lines are kept.
pub fn keep_lines(p: &mut Parts, lines: Vec<Line>)
    requires kept { IsKept p.old }
    requires gone { p.old.lost ≡ true }
    requires may { MayCheckpoint (seen p.old) lines.items }
    ensures kept { IsKept p.new }
    ensures answer { seen p.new ≡ record (seen p.old) { lines_out = false; home = lines.items } }
{
    laws::a_checkpoint_ends_a_round();
    keep_home(p, lines);
}
