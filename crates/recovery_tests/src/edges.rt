//! Images at the edges of what is allowed, mounted, cut at each step or some steps apart, and mounted again.
//!
//! They are put together by their places in docs/FORMAT.md. Of 64 blocks and 4 log lines: the log's base from byte 128 on, the journal from
//! 4,096, inode lines from 20,480, name lines from 24,576, log lines from 28,672, data from 32,768.
use crate::images::{ALL, CHOICES, fresh, left, number_at, shows, steps_of};
use pm_lines::Choice;
use split_tables::{put_entry, put_number};
use std::alloc::Global;

const BASE: usize = 128;

const INODES: usize = 20_480;

const NAMES: usize = 24_576;

const LOG: usize = 28_672;

const DEFAULT_LOG: usize = 32_768;

const SMALL: &str = "64 4 16 16";

// An inode line: its kind, of generation 1.
fn put_node(image: &mut [u8], place: usize, kind: u64) {
    put_number(image, place, 1, kind);
    put_number(image, place.saturating_add(4), 4, 1);
}

// A name line: a name in the root, by one number for its bytes, for an inode.
fn put_name(image: &mut [u8], place: usize, ino: u64, width: usize, name: u64) {
    put_number(image, place.saturating_add(4), 4, ino);
    put_number(image, place.saturating_add(8), 1, width as u64);
    put_number(image, place.saturating_add(16), width, name);
}

// Whether each byte of so many log lines from this byte on is zero.
fn is_zero(image: &[u8], log: usize, lines: usize) -> bool {
    let end = log.saturating_add(lines.saturating_mul(64));
    let mut zero = true;
    for byte in image.get(log..end).unwrap_or(&[]) {
        zero = zero && *byte == 0;
    }
    zero
}

// The base that is left, and whether each byte of the four log lines is zero.
fn log_of(image: &[u8]) -> (u64, bool) {
    (number_at(image, BASE), is_zero(image, LOG, 4))
}

// ---- bases of the log

// The image with this base, a directory `/x`, and log lines that are full of sevens, which are no entries.
fn image_of_base(alloc: Global, base: u64) -> Vec<u8> {
    let mut image = fresh(alloc, SMALL);
    put_number(&mut image, BASE, 8, base);
    put_node(&mut image, INODES.saturating_add(320), 1);
    put_name(&mut image, NAMES, 5, 1, 120);
    put_sevens(&mut image, LOG, 256);
    image
}

// So many bytes from this one on are sevens.
fn put_sevens(image: &mut [u8], from: usize, count: usize) {
    for byte in 0..count {
        put_number(image, from.saturating_add(byte), 1, 7);
    }
}

const TOP: u64 = 1 << 62;

// A base, the base behind a mount, and whether the log's lines become zero.
const BASES: [(u64, u64, bool); 7] = [
    (1, 5, false),
    (5, 9, false),
    (TOP, TOP + 4, false),
    (TOP + 1, 1, true),
    (TOP + 65, 1, true),
    (2 * TOP - 4, 1, true),
    (2 * TOP, 1, true),
];

// Whether a mount leaves this base, with its log lines zero or not.
fn is_base(alloc: Global, image: &[u8], log: usize, lines: usize, base: (u64, bool)) -> bool {
    let mounted = left(alloc, image, Choice::Oldest, &[ALL]);
    number_at(&mounted, BASE) == base.0 && is_zero(&mounted, log, lines) == base.1
}

// Whether a mount leaves the base behind a base.
fn is_base_right(alloc: Global, base: u64, after: (u64, bool)) -> bool {
    let image = image_of_base(alloc, base);
    is_base(alloc, &image, LOG, 4, after)
}

// The first base behind which a mount leaves another one than it has to.
fn wrong_base(alloc: Global) -> Option<u64> {
    for (base, after, zero) in &BASES {
        if !is_base_right(alloc, *base, (*after, *zero)) {
            return Some(*base);
        }
    }
    None
}

// Whether a base is refused.
fn is_base_refused(alloc: Global, base: u64) -> bool {
    let image = image_of_base(alloc, base);
    shows(alloc, &image, "splitfs: bad image: rule 11 at 128\n")
}

#[test]
fn bases_of_the_log(rt: HostRuntime) {
    assert_eq!(rt; wrong_base(rt.alloc()), None);
    assert!(rt; is_base_refused(rt.alloc(), 2 * TOP + 1));
}

// The fresh image of 256 blocks and 64 log lines, with this base and with log lines that are full of sevens. Its log begins at byte
// 32,768.
fn default_of_base(alloc: Global, base: u64) -> Vec<u8> {
    let mut image = fresh(alloc, "256 64 64 128");
    put_number(&mut image, BASE, 8, base);
    put_sevens(&mut image, DEFAULT_LOG, 4096);
    image
}

// Whether a mount leaves the base behind a base.
fn is_default_right(alloc: Global, base: u64, after: (u64, bool)) -> bool {
    let image = default_of_base(alloc, base);
    is_base(alloc, &image, DEFAULT_LOG, 64, after)
}

#[test]
fn log_base_restart(rt: HostRuntime) {
    assert!(rt; is_default_right(rt.alloc(), TOP + 65, (1, true)));
    assert!(rt; is_default_right(rt.alloc(), 5, (69, false)));
}

// ---- cut at each step

// Whether an image shows this tree where its mount is cut at a step, that of what is left at the same step, and the last one is whole.
fn is_kept_at(alloc: Global, image: &[u8], tree: &str, choice: Choice, steps: u64) -> bool {
    let left = left(alloc, image, choice, &[steps, steps, ALL]);
    shows(alloc, &left, tree)
}

// Whether an image shows a tree where its mount is cut at a step, and twice, with each choice.
fn is_kept_with_each(alloc: Global, image: &[u8], tree: &str, steps: u64) -> bool {
    for choice in &CHOICES {
        if !is_kept_at(alloc, image, tree, *choice, steps) {
            return false;
        }
    }
    true
}

// Whether an image shows a tree where its mount is cut, so many steps apart, and twice, with each choice.
fn is_kept(alloc: Global, image: &[u8], tree: &str, every: u64) -> bool {
    let last = steps_of(alloc, image);
    let mut kept = last > 0 && shows(alloc, image, tree);
    let mut steps: u64 = 0;
    for _ in 0..100_000_u64 {
        if !kept || steps > last {
            return kept;
        }
        kept = is_kept_with_each(alloc, image, tree, steps);
        steps = steps.saturating_add(every);
    }
    false
}

// The base and the log that are left where an image is mounted once for each of these numbers of steps.
fn log_left(alloc: Global, image: &[u8], choice: Choice, again: &[u64]) -> (u64, bool) {
    log_of(&left(alloc, image, choice, again))
}

// A restart that is cut: the base is the old one until the log is zero. The mount behind it begins anew, or goes on from the new base,
// which the journal may hold by then.
fn restarts_at(alloc: Global, image: &[u8], choice: Choice, steps: u64) -> bool {
    let (base, zero) = log_left(alloc, image, choice, &[steps]);
    let (last, last_zero) = log_left(alloc, image, choice, &[steps, ALL]);
    (base == TOP + 65 || (base == 1 && zero)) && last_zero && (last == 1 || last == 5)
}

// Likewise with each choice.
fn restarts_with_each(alloc: Global, image: &[u8], steps: u64) -> bool {
    for choice in &CHOICES {
        if !restarts_at(alloc, image, *choice, steps) {
            return false;
        }
    }
    true
}

// Whether a restart is right that is cut at each of its steps, which are more than 32.
fn restarts(alloc: Global, image: &[u8]) -> bool {
    let last = steps_of(alloc, image);
    for steps in 0..last {
        if !restarts_with_each(alloc, image, steps) {
            return false;
        }
    }
    last > 32
}

// Whether a restart shows its tree, and is right, at each step.
fn is_restart_right(alloc: Global) -> bool {
    let image = image_of_base(alloc, TOP + 65);
    is_kept(alloc, &image, "/ dir\n/x dir\n", 1) && restarts(alloc, &image)
}

#[test]
fn log_base_restart_at_each_step(rt: HostRuntime) {
    assert!(rt; is_restart_right(rt.alloc()));
}

// ---- live entries that leave just the blocks that they need

// The chain of staging file 1: its root 8 in its inode line, and one extent of the blocks from 9 on.
const CHAIN: [(usize, usize, u64); 5] = [
    (INODES + 68, 4, 1),
    (INODES + 88, 4, 8),
    (INODES + 92, 4, 1),
    (32_772, 4, 1),
    (32_788, 4, 9),
];

// Staging file 1 has its chain block 8 and so many blocks from 9 on, the first four full of `a`.
fn put_staged(image: &mut [u8], staged: u64) {
    for (place, width, number) in &CHAIN {
        put_number(image, *place, *width, *number);
    }
    put_number(image, 32_792, 4, staged);
    for at in 0..16_384_usize {
        put_number(image, at + 36_864, 1, 97);
    }
}

// The file `/y` is empty, and so many blocks are staged.
fn image_of_room(alloc: Global, staged: u64) -> Vec<u8> {
    let mut image = fresh(alloc, SMALL);
    put_node(&mut image, INODES.saturating_add(320), 2);
    put_name(&mut image, NAMES, 5, 1, 121);
    put_staged(&mut image, staged);
    image
}

// In slot s an entry of order s + 1: block s of `/y` is staging block s, and the file ends with it.
fn put_live(image: &mut [u8], slot: u64) {
    let next = slot.saturating_add(1);
    let place = (slot as usize).saturating_mul(64).saturating_add(LOG);
    let size = next.saturating_mul(4096);
    put_entry(image, place, &[next, next, 5, 1, slot, 1, 1, slot, 1, size]);
}

// An image with so many live entries and so many staged blocks.
fn image_of_entries(alloc: Global, entries: u64, staged: u64) -> Vec<u8> {
    let mut image = image_of_room(alloc, staged);
    for slot in 0..entries.min(4) {
        put_live(&mut image, slot);
    }
    image
}

// 56 data blocks, of which the reserve is 4. One live entry needs 1 + 4 - 3 = 2 that nothing names, four need 5; the chain block of
// the staging file takes one more.
const ROOM: [(u64, u64, &str); 2] = [
    (1, 53, "/ dir\n/y file 4096 61*4096\n"),
    (4, 50, "/ dir\n/y file 16384 61*16384\n"),
];

// Whether so many entries have their room, and show this tree where the mount is cut.
fn is_room_enough(alloc: Global, entries: u64, staged: u64, tree: &str) -> bool {
    let image = image_of_entries(alloc, entries, staged);
    is_kept(alloc, &image, tree, 7)
}

// Whether so many entries have not their room.
fn is_room_short(alloc: Global, entries: u64, staged: u64) -> bool {
    let image = image_of_entries(alloc, entries, staged);
    shows(alloc, &image, "splitfs: bad image: rule 12 at 0\n")
}

// The first number of entries that have not their room where they should, or have it where they should not.
fn wrong_room(alloc: Global) -> Option<u64> {
    for (entries, staged, tree) in &ROOM {
        if !is_room_enough(alloc, *entries, *staged, tree)
            || !is_room_short(alloc, *entries, staged.saturating_add(1))
        {
            return Some(*entries);
        }
    }
    None
}

#[test]
fn live_entries_with_just_their_room(rt: HostRuntime) {
    assert_eq!(rt; wrong_room(rt.alloc()), None);
}
