// The words of an image, and the bytes of words. Numbers are little endian.
ghost use Rattle.std.specs.Prelude.{◌≡◌, ◌≢◌, [], ◌+◌, ◌*◌, ◌/◌, ◌%◌, ◌^◌, ◌<◌, ◌≤◌, ℕ, length, map, slice_index, slice_index_or, IfOk};
ghost use Rattle.std.specs.Int.{to_le_bytes, w64};
ghost use Rattle.std.specs.List.{range_with_len};
ghost use Rattle.pm_model.specs.Words.{word_at};

use std::alloc::{AllocError, Global};

// The word at `index` of some bytes.
pub(crate) fn word_in(bytes: &[u8], index: usize) -> u64
    requires { 8 * index + 8 ≤ length bytes.now }
    ensures { result ≡ word_at bytes.now index }
{
    let at = 8 * index;
    u64::from_le_bytes([
        bytes[at],
        bytes[at + 1],
        bytes[at + 2],
        bytes[at + 3],
        bytes[at + 4],
        bytes[at + 5],
        bytes[at + 6],
        bytes[at + 7],
    ])
}

// The words of the bytes.
pub(crate) fn words_of_bytes(alloc: Global, bytes: &[u8]) -> Result<Vec<u64>, AllocError>
    requires { length bytes.now % 8 ≡ 0 }
    ensures { IfOk result (λ words. words.items
        ≡ map (word_at bytes.now) (range_with_len 0 (length bytes.now / 8))) }
{
    let count = bytes.len() / 8;
    (0..count)
        .map(
            |index|
                requires { index < length bytes.now / 8 }
            { word_in(bytes, index) },
        )
        .collect(alloc)
}

// Writes the bytes of a word.
pub(crate) fn put_word(bytes: &mut [u8], index: usize, word: u64)
    requires { 8 * index + 8 ≤ length bytes.old }
    ensures word { word_at bytes.new index ≡ word }
    ensures others { (i : ℕ) → i ≢ index → word_at bytes.new i ≡ word_at bytes.old i }
{
    let at = 8 * index;
    bytes[at..at + 8].copy_from_slice(&word.to_le_bytes());
}

// The bytes of the eight words of a line, word by word.
pub(crate) fn bytes_of_line(words: &[u64; 8]) -> [u8; 64]
    ensures { (k : ℕ) → k < 8 → word_at result k ≡ slice_index words.now k }
{
    let mut bytes = [0; 64];
    for k in 0..8 {
        put_word(&mut bytes, k, words[k]);
    }
    bytes
}

// The bytes of each of 32 words from the first on.
fn bytes_of_32(words: &[u64], first: usize) -> [[u8; 8]; 32]
    requires { first + 32 ≤ length words.now }
    ensures { (k : ℕ) → k < 32
        → slice_index_or result k [] ≡ to_le_bytes w64 (slice_index words.now (first + k)) }
{
    let mut each = [[0; 8]; 32];
    for k in 0..32 {
        each[k] = words[first + k].to_le_bytes();
    }
    each
}

// The bytes of words, 32 words at a time.
pub(crate) fn bytes_of_words(alloc: Global, words: &[u64]) -> Result<Vec<u8>, AllocError>
    requires { length words.now % 32 ≡ 0 }
    ensures size { IfOk result (λ bytes. length bytes.items ≡ 8 * length words.now) }
    ensures words { IfOk result (λ bytes. (i : ℕ)
        → word_at bytes.items i ≡ slice_index words.now i) }
{
    let mut bytes = Vec::with_capacity(alloc, 8 * words.len())?;
    for run in 0..words.len() / 32 {
        bytes.extend_from_slice(bytes_of_32(words, 32 * run).as_flattened())?;
    }
    Ok(bytes)
}
