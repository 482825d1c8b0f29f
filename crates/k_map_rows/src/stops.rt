//! A call that loses its power after every seventh number of steps: what its images show.
ghost use Rattle.std.specs.Prelude.{IfOk, IfSome, OnOk};
ghost use Rattle.k_map_tests.specs.pm_model.Cells.{AllHome};
ghost use Rattle.k_map_tests.specs.Calls.{IsFresh};

use crate::contents::{add_content, applied};
use crate::publishing::{no_runs, published, three_runs};
use crate::reading::{call_of, first_word, numbers};
use crate::shown::put_map;
use k_check::Commit;
use k_map_tests::{MapCall, Reply, apply, left, opened};
use k_split::KSplit;
use pm_lines::{Choice, Pm, Power};
use std::alloc::Global;
use test_kit::{RowError, Text};

const CHOICES: [Choice; 4] = [Choice::Oldest, Choice::Newest, Choice::Even, Choice::Odd];

// What a line asks for that may be cut off: a call on maps, or the publishing of the three runs.
#[derive(Clone, Copy)]
pub(crate) enum Asked {
    Map(MapCall),
    Publish,
}

// What a line asks for, by its first word and its numbers.
pub(crate) fn asked_of(name: &str, numbers: &[u32]) -> Result<Asked, RowError> {
    if name == "publish" {
        return Ok(Asked::Publish);
    }
    Ok(Asked::Map(call_of(name, numbers)?))
}

// Makes a call on maps.
fn map_made(
    k: &mut KSplit,
    alloc: Global,
    call: &MapCall,
    power: &mut Power,
) -> Result<Reply, RowError>
    requires { IsFresh k.old }
    ensures { OnOk result (AllHome k.new.cells) }
{
    apply(k, alloc, call, power)
}

// Does what a line asks for.
pub(crate) fn done(
    k: &mut KSplit,
    alloc: Global,
    asked: &Asked,
    power: &mut Power,
) -> Result<Reply, RowError>
    requires { IsFresh k.old }
    ensures { OnOk result (AllHome k.new.cells) }
{
    match asked {
        Asked::Map(call) => map_made(k, alloc, call, power),
        Asked::Publish => match published(alloc, k, &three_runs(), power)? {
            Commit::Done => Ok(Reply::Done),
            Commit::PowerLost => Ok(Reply::Lost),
        },
    }
}

// The maps of all inodes, what files 5 and 6 read, and how many of the three runs are published.
#[derive(Drop)]
struct Facts {
    maps: String,
    contents: Vec<u8>,
    count: u64,
}

// The maps of all inodes, a line each.
fn maps_of(alloc: Global, k: &KSplit) -> Result<String, RowError> {
    let mut text = Text::new(alloc);
    for ino in 1..7 {
        put_map(&mut text, alloc, k, ino)?;
        text.put("\n");
    }
    text.end()
}

// What files 5 and 6 read.
fn contents_of(alloc: Global, k: &KSplit) -> Result<Vec<u8>, RowError>
    requires { IsFresh k.now }
{
    let mut bytes = Vec::new(alloc);
    add_content(&mut bytes, k, &three_runs())?;
    add_content(&mut bytes, k, &no_runs())?;
    Ok(bytes)
}

fn facts_in(alloc: Global, k: &KSplit) -> Result<Facts, RowError>
    requires { IsFresh k.now }
{
    Ok(Facts {
        count: applied(k, 5),
        maps: maps_of(alloc, k)?,
        contents: contents_of(alloc, k)?,
    })
}

// The facts of an image that breaks no rule.
fn facts_of(alloc: Global, image: &[u8]) -> Result<Facts, RowError> {
    let k = opened(alloc, image)?;
    facts_in(alloc, &k)
}

// How many places of an image have another byte than each of two others.
fn strange_count(image: &[u8], before: &[u8], after: &[u8]) -> u64 {
    let mut count: u64 = 0;
    for (place, byte) in image.iter().enumerate() {
        if before.get(place) != Some(byte) && after.get(place) != Some(byte) {
            count = count.saturating_add(1);
        }
    }
    count
}

// What the images of a call that is cut off showed.
#[derive(Clone, Copy)]
struct Seen {
    // How many have all maps of before, all of after, and others.
    old: u64,
    new: u64,
    others: u64,
    // Whether bytes are looked at, and how many were neither those of before nor those of after.
    looks_at_bytes: bool,
    strange: u64,
    // In how many a file reads otherwise than before.
    changed: u64,
    // Whether some image has so many runs published.
    published: [bool; 4],
}

impl Seen {
    fn nothing(looks_at_bytes: bool) -> Seen {
        Seen {
            old: 0,
            new: 0,
            others: 0,
            looks_at_bytes,
            strange: 0,
            changed: 0,
            published: [false; 4],
        }
    }

    // Counts the maps of an image.
    fn count_maps(&mut self, came: &str, before: &str, after: &str) {
        if came == before {
            self.old = self.old.saturating_add(1);
        } else if came == after {
            self.new = self.new.saturating_add(1);
        } else {
            self.others = self.others.saturating_add(1);
        }
    }

    // Counts what files read in an image that has so many runs published.
    fn count_contents(&mut self, is_same: bool, count: u64) {
        if !is_same {
            self.changed = self.changed.saturating_add(1);
        }
        if count < 4 {
            self.published[count as usize] = true;
        }
    }

    // Whether each image has all maps of before or all of after, and both came.
    fn put_maps(&self, text: &mut Text) {
        if 0 < self.old && 0 < self.new && self.others == 0 {
            text.put("old or new");
            return;
        }
        text.put_number(self.old);
        text.put(" old, ");
        text.put_number(self.new);
        text.put(" new, ");
        text.put_number(self.others);
        text.put(" others");
    }

    // How many bytes the call changes, where each byte of each image is that of before or that of after.
    fn put_bytes(&self, text: &mut Text, count: u64) {
        if self.strange == 0 {
            text.put_number(count);
            text.put(" bytes, old or new");
            return;
        }
        text.put_number(self.strange);
        text.put(" others");
    }

    // Whether the files read as before in each image, and each number of published runs came.
    fn put_contents(&self, text: &mut Text) {
        let [none, one, two, three] = self.published;
        if self.changed == 0 && none && one && two && three {
            text.put("read as before with 0 to 3 runs published");
            return;
        }
        text.put_number(self.changed);
        text.put(" read otherwise, or some number of runs did not come");
    }
}

// An image before a call and the one after it, with their facts.
#[derive(Drop)]
struct Both {
    before: Vec<u8>,
    after: Vec<u8>,
    old: Facts,
    new: Facts,
}

impl Both {
    // Looks at an image.
    fn look(&self, alloc: Global, image: &[u8], seen: &mut Seen) -> Result<(), RowError> {
        let came = facts_of(alloc, image)?;
        seen.count_maps(&came.maps, &self.old.maps, &self.new.maps);
        let is_same = came.contents.as_slice() == self.old.contents.as_slice();
        seen.count_contents(is_same, came.count);
        if seen.looks_at_bytes {
            let strange = strange_count(image, &self.before, &self.after);
            seen.strange = seen.strange.saturating_add(strange);
        }
        Ok(())
    }

    // Looks at the images of a device.
    fn look_at_all(&self, alloc: Global, pm: &Pm, seen: &mut Seen) -> Result<(), RowError>
        requires { AllHome pm.now }
    {
        for choice in CHOICES {
            let image = pm.choose(alloc, choice)?;
            self.look(alloc, &image, seen)?;
        }
        Ok(())
    }

    // Looks at the images of the devices that the call leaves which is cut off, until it is done.
    fn look_at_stops(&self, alloc: Global, asked: &Asked, seen: &mut Seen) -> Result<(), RowError> {
        for stop in 0..8192u64 {
            match cut(alloc, &self.before, asked, 7 * stop)? {
                Some(pm) => self.look_at_all(alloc, &pm, seen)?,
                None => return Ok(()),
            }
        }
        Err(RowError::PowerLost)
    }

    // Adds what the images show, as the first word of a line asks for it.
    fn put(&self, text: &mut Text, name: &str, seen: &Seen) {
        match name {
            "cut" => seen.put_maps(text),
            "torn" => {
                let count = strange_count(&self.after, &self.before, &self.before);
                seen.put_bytes(text, count);
            }
            _ => seen.put_contents(text),
        }
    }
}

// The device that a call leaves which has power for so many steps; None where it was not cut off.
fn cut(alloc: Global, image: &[u8], asked: &Asked, steps: u64) -> Result<Option<Pm>, RowError>
    ensures { IfOk result (λ left. IfSome left AllHome) }
{
    let mut k = opened(alloc, image)?;
    let mut power = Power::after(steps);
    let reply = done(&mut k, alloc, asked, &mut power)?;
    let pm = k.into_pm();
    match reply {
        Reply::Lost => Ok(Some(pm)),
        Reply::Done | Reply::Room(_) | Reply::Unfit => Ok(None),
    }
}

// The image that a call leaves which has its power.
fn image_after(alloc: Global, image: &[u8], asked: &Asked) -> Result<Vec<u8>, RowError> {
    let mut k = opened(alloc, image)?;
    let mut power = Power::always();
    done(&mut k, alloc, asked, &mut power)?;
    left(alloc, k)
}

fn with_facts(alloc: Global, before: Vec<u8>, after: Vec<u8>) -> Result<Both, RowError> {
    Ok(Both {
        old: facts_of(alloc, &before)?,
        new: facts_of(alloc, &after)?,
        before,
        after,
    })
}

// The image before a call and the one after it.
fn both_of(alloc: Global, image: &[u8], asked: &Asked) -> Result<Both, RowError> {
    let before = Vec::from_slice(alloc, image)?;
    with_facts(alloc, before, image_after(alloc, image, asked)?)
}

// Cuts a call off after every seventh number of steps, and adds what its images show.
fn put_stops(
    text: &mut Text,
    alloc: Global,
    image: &[u8],
    name: &str,
    asked: &Asked,
) -> Result<(), RowError> {
    let both = both_of(alloc, image, asked)?;
    let mut seen = Seen::nothing(name == "torn");
    both.look_at_stops(alloc, asked, &mut seen)?;
    both.put(text, name, &seen);
    Ok(())
}

// The same for the call that a line spells.
pub(crate) fn line_stopped(
    text: &mut Text,
    alloc: Global,
    image: &[u8],
    name: &str,
    line: &str,
) -> Result<(), RowError> {
    let (call, words) = first_word(line);
    let asked = asked_of(call, &numbers(alloc, words)?)?;
    put_stops(text, alloc, image, name, &asked)
}
