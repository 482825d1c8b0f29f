//! A row is done, line by line.
ghost use Rattle.std.specs.Prelude.{◌≡◌, false, IfOk};
ghost use Rattle.split_machine.specs.run_laws.Between.{CanCrash};
ghost use Rattle.split_machine.specs.run_laws.Held.{nothing_out};
ghost use Rattle.split_machine.specs.run_laws.Runs.{IsFirst};
ghost use Rattle.split_machine.specs.Events.{seen, IsUnderWay};
ghost use Rattle.schedule_tests.specs.Losses.{IsAfterLoss, IsAtMoment};

use crate::worlds::judging::{fault_left, mode_of, numbers};
use crate::worlds::losses::{crashed, finish_after, give_up_after, lose};
use crate::worlds::moments::{event, opened, world_of};
use k_split::mkfs;
use pm_lines::Power;
use posix_types::Who;
use split_machine::{Out, World};
use std::alloc::Global;
use test_kit::{RowError, Text, asked, option, put_lines, small_number};

// The caller of a name: `s` for the set-up, or the number of a thread.
fn caller(name: &str) -> Result<Who, RowError> {
    if name == "s" {
        return Ok(Who::Setup);
    }
    Ok(Who::Thread(small_number(name)?))
}

// A step while the power is on: the World is told that it went, or a caller's next event comes.
fn step_on(
    alloc: Global,
    world: &mut World,
    out: &mut Out,
    words: &str,
    power: &mut Power,
    reply: &str,
) -> Result<bool, RowError>
    requires awake { world.old.lost ≡ false }
    requires under_way { IsUnderWay world.old (seen out.old) power.old }
    ensures { IfOk result (λ told. IsAtMoment world.new (seen out.new) power.new) }
{
    if words == "lose" {
        lose(world, out);
        return Ok(reply == "lost");
    }
    event(alloc, world, out, caller(words)?, power, reply)
}

// A step once it went.
fn step_off(
    world: &mut World,
    out: &mut Out,
    words: &str,
    power: &mut Power,
    reply: &str,
) -> Result<bool, RowError>
    requires { IsAfterLoss world.old (seen out.old) }
    ensures { IfOk result (λ told. IsAfterLoss world.new (seen out.new)) }
{
    match words.split_once(' ') {
        Some(("finish", name)) => {
            finish_after(world, out, caller(name)?, power)?;
            Ok(reply == "power lost")
        }
        Some(("give", name)) => {
            give_up_after(world, out, caller(name)?)?;
            Ok(reply == "given up")
        }
        _ => Err(RowError::Misspelled),
    }
}

// A step: whether its answer is what is told.
fn step(
    alloc: Global,
    world: &mut World,
    out: &mut Out,
    words: &str,
    power: &mut Power,
    reply: &str,
) -> Result<bool, RowError>
    requires { IsAtMoment world.old (seen out.old) power.old }
    ensures { IfOk result (λ told. IsAtMoment world.new (seen out.new) power.new) }
{
    if world.is_lost() {
        step_off(world, out, words, power, reply)
    } else {
        step_on(alloc, world, out, words, power, reply)
    }
}

// The first step of a row with another answer than is told, if there is one.
fn fault_on_the_way<'a>(
    alloc: Global,
    world: &mut World,
    out: &mut Out,
    row: &'a str,
    power: &mut Power,
) -> Result<Option<&'a str>, RowError>
    requires { IsAtMoment world.old (seen out.old) power.old }
    ensures { IfOk result (λ told. IsAtMoment world.new (seen out.new) power.new) }
{
    for line in row.lines() {
        if let Some((words, reply)) = asked(line) {
            if !step(alloc, world, out, words, power, reply)? {
                return Ok(Some(line));
            }
        }
    }
    Ok(None)
}

// A World in which nothing has begun does the steps of a row.
fn fault_of_steps<'a>(
    alloc: Global,
    world: &mut World,
    out: &mut Out,
    row: &'a str,
) -> Result<Option<&'a str>, RowError>
    requires first { IsFirst world.old }
    requires none { seen out.old ≡ nothing_out }
    ensures { IfOk result (λ told. CanCrash world.new (seen out.new)) }
{
    let mut power = Power::always();
    opened(alloc, world, out, &power)?;
    fault_on_the_way(alloc, world, out, row, &mut power)
}

// What is wrong with what is left where a World is crashed behind its steps.
fn fault_behind<'a>(
    alloc: Global,
    world: World,
    out: Out,
    row: &'a str,
) -> Result<Option<&'a str>, RowError>
    requires { CanCrash world (seen out) }
{
    let left = crashed(alloc, world, out)?;
    Ok(fault_left(alloc, &left, row))
}

// A World in which nothing has begun does the steps of a row, and is crashed.
fn fault_of<'a>(alloc: Global, world: World, row: &'a str) -> Result<Option<&'a str>, RowError>
    requires { IsFirst world }
{
    let mut world = world;
    let mut out = Out {
        log: None,
        jobs: Vec::new(alloc),
    };
    match fault_of_steps(alloc, &mut world, &mut out, row) {
        Ok(None) => fault_behind(alloc, world, out, row),
        other => other,
    }
}

// The World of a script on an image of its own, in which nothing has begun.
fn world_with(alloc: Global, row: &str, script: &str) -> Result<World, RowError>
    ensures { IfOk result IsFirst }
{
    let image = mkfs(alloc, &numbers()?)?;
    world_of(alloc, &image, mode_of(row), script.as_bytes())
}

// The World of a row, in which nothing has begun.
fn first_world(alloc: Global, row: &str) -> Result<World, RowError>
    ensures { IfOk result IsFirst }
{
    let mut script = Text::new(alloc);
    put_lines(&mut script, option(row, "script").unwrap_or(""));
    world_with(alloc, row, script.as_str())
}

/// How a row goes: `ok`, or what is wrong: the first line with another answer, or what is left otherwise. It has a `script`, with `; `
/// between two lines, for an image with four lines of the log; and then what is done. `NAME = TOLD` is the next event of a caller,
/// `s` or the number of a thread, and tells how far its job came, or why it has none. `lose = lost` tells the World that the power
/// went; behind it `finish NAME = power lost` and `give NAME = given up` are what may still come of a job, durable in its slot or with
/// no slot left. The option `left` has how many calls returned, and whose are unfinished, in their order; `left-CHOICE` a tree that is
/// found; and `mode sync` is of a row in sync mode.
pub(crate) fn world_told(alloc: Global, row: &str) -> Result<String, RowError> {
    let world = first_world(alloc, row)?;
    let fault = fault_of(alloc, world, row)?;
    let mut told = Text::new(alloc);
    match fault {
        Some(fault) => {
            told.put("otherwise: ");
            told.put(fault);
        }
        None => told.put("ok"),
    }
    told.end()
}
