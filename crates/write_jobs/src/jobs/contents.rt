//! What the blocks of a write are to hold: the bytes, and the words that these spell.
ghost use Rattle.std.specs.Prelude.{◌≡◌, ◌≤◌, ◌<◌, ◌+◌, ◌*◌, ◌/◌, ◌%◌, ◌^◌, ℕ, length, slice_index};
ghost use Rattle.pm_lines.specs.pm_model.Words.{word_at};
ghost use Rattle.write_jobs.specs.Contents.{framed, framed_bytes, SpellBytes};

use posix_types::Data;
use std::marker::Model;

/// What blocks of a file are to hold: its bytes in these blocks before byte `at` of them, new bytes from there on, and its
/// bytes behind those; what is in none is zero. The new bytes are shared with the call. Contracts see the words that these
/// bytes spell, 512 a block.
#[derive(Debug, Drop)]
pub struct StagedBytes {
    front: Vec<u8>,
    at: usize,
    new: Data,
    back: Vec<u8>,
    count: u32,
}

impl Model for StagedBytes {
    ghost use Rattle.std.specs.Prelude.{◌≤◌, ◌*◌, ℕ, List};
    ghost use Rattle.write_jobs.specs.Contents.{framed, words_in};

    ghost Value = { List ℕ };

    ghost view = { λ a. words_in (framed a.front.items a.at a.new a.back.items) (512 * a.count) };

    ghost invariant = { λ a. a.count ≤ 33 };
}

// Byte `i` of new bytes that begin at `at`, between others.
fn byte_at(front: &[u8], at: usize, new: &[u8], back: &[u8], i: usize) -> u8
    ensures { result ≡ slice_index (framed front.now at new.now back.now) i }
{
    if i < at {
        return if i < front.len() { front[i] } else { 0 };
    }
    let inside = i - at;
    if inside < new.len() {
        return new[inside];
    }
    let behind = inside - new.len();
    if behind < back.len() { back[behind] } else { 0 }
}

// Eight bytes of them, from `first` on.
fn eight_at(front: &[u8], at: usize, new: &[u8], back: &[u8], first: usize) -> [u8; 8]
    requires { first < 2 ^ 32 }
    ensures { (j : ℕ) → j < 8
        → slice_index result j ≡ slice_index (framed front.now at new.now back.now) (first + j) }
{
    let mut eight = [0; 8];
    for j in 0..8 {
        eight[j] = byte_at(front, at, new, back, first + j);
    }
    eight
}

// Eight of the new bytes, from `first` on.
fn eight_of(new: &[u8], first: usize) -> [u8; 8]
    requires { first + 8 ≤ length new.now }
    ensures { (j : ℕ) → j < 8 → slice_index result j ≡ slice_index new.now (first + j) }
{
    let part = &new[first..first + 8];
    [
        part[0], part[1], part[2], part[3], part[4], part[5], part[6], part[7],
    ]
}

// The word that eight bytes spell, the first one lowest.
fn word_of(eight: [u8; 8]) -> u64
    ensures { (j : ℕ) → j < 8 → result / 256 ^ j % 256 ≡ slice_index eight j }
{
    u64::from_le_bytes(eight)
}

// The word that the eight bytes from `from` on spell, where bytes behind the end are zero.
fn word_from(bytes: &[u8], from: usize) -> u64
    requires { from < 2 ^ 32 }
    ensures { (j : ℕ) → j < 8 → result / 256 ^ j % 256 ≡ slice_index bytes.now (from + j) }
{
    if 8 <= bytes.len() && from <= bytes.len() - 8 {
        return word_of(eight_of(bytes, from));
    }
    if bytes.len() <= from {
        return 0;
    }
    word_of(eight_at(bytes, bytes.len(), &[], &[], from))
}

// Word `i` of them: where it lies in one of the three, it is made of that alone.
fn word_at(front: &[u8], at: usize, new: &[u8], back: &[u8], i: usize) -> u64
    requires { i < 2 ^ 20 }
    ensures { (j : ℕ) → j < 8 → result / 256 ^ j % 256
        ≡ slice_index (framed front.now at new.now back.now) (8 * i + j) }
{
    let first = 8 * i;
    if first < at {
        if 8 <= at - first {
            return word_from(front, first);
        }
        return word_of(eight_at(front, at, new, back, first));
    }
    let inside = first - at;
    if new.len() <= inside {
        return word_from(back, inside - new.len());
    }
    if 8 <= new.len() - inside {
        return word_of(eight_of(new, inside));
    }
    word_of(eight_at(front, at, new, back, first))
}

// The words of block `block` of them.
fn block_at(front: &[u8], at: usize, new: &[u8], back: &[u8], block: usize) -> [u64; 512]
    requires { block < 2 ^ 11 }
    ensures { (j : ℕ) → j < 512
        → slice_index result j ≡ word_at (framed front.now at new.now back.now) (512 * block + j) }
{
    let mut words = [0; 512];
    for j in 0..512 {
        words[j] = word_at(front, at, new, back, 512 * block + j);
    }
    words
}

// Bytes are below 256.
fn bytes_are_small(bytes: &[u8])
    ensures { (n : ℕ) → slice_index bytes.now n < 256 }
{}

impl StagedBytes {
    /// What `count` blocks of a file, 33 at most, are to hold: its bytes in these blocks before byte `at` of them, the new
    /// bytes from there on, and its bytes behind those. It takes no memory.
    pub fn of(front: Vec<u8>, at: usize, new: Data, back: Vec<u8>, count: u32) -> StagedBytes
        requires { count ≤ 33 }
        ensures { SpellBytes result (framed_bytes front.items at new back.items count) }
    {
        bytes_are_small(&front);
        bytes_are_small(new.as_slice());
        bytes_are_small(&back);
        StagedBytes {
            front,
            at,
            new,
            back,
            count,
        }
    }

    /// The 512 words of block `block`.
    pub(crate) fn block(&self, block: usize) -> [u64; 512]
        requires { 512 * block + 512 ≤ length self.now }
        ensures { (j : ℕ) → j < 512
            → slice_index result j ≡ slice_index self.now (512 * block + j) }
    {
        block_at(&self.front, self.at, self.new.as_slice(), &self.back, block)
    }
}
