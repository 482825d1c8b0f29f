// The image that a choice takes from words.
ghost use Rattle.std.specs.Prelude.{◌≡◌, ◌≢◌, ◌+◌, ◌*◌, ◌%◌, ◌^◌, ◌<◌, ◌≤◌, ◌==◌, ℕ, true, length, IfOk, if◌then◌else◌};
ghost use Rattle.rand_xoshiro.specs.SplitMix64.{mix_u64};
ghost use Rattle.pm_model.specs.Cells.{cell, is_single, oldest, newest};
ghost use Rattle.pm_model.specs.Images.{IsImageOf};
ghost use Rattle.pm_model.specs.Words.{word_at};
ghost use Rattle.pm_lines.specs.Choices.{chosen, by_parity, by_draws, state_after, is_odd_draw};

use crate::cells::candidate;
use crate::choices::Choice;
use crate::images::{bytes_of_words, put_word};
use crate::pairs::Pair;
use crate::words::Words;
use pm_model::Cell;
use rand_core::SeedableRng;
use rand_core::utils::NextWord;
use rand_xoshiro::SplitMix64;
use std::alloc::{AllocError, Global};

// The first for an even number, the second for an odd one.
fn of_parity(index: usize, even: bool, odd: bool) -> bool
    ensures { result ≡ (if index % 2 == 0 then even else odd) }
{
    if index % 2 == 0 { even } else { odd }
}

// The newer candidate of a pair, or the older.
fn one_of(pair: &Pair, is_newest: bool) -> u64
    ensures { result ≡ (if is_newest then pair.now.new else pair.now.old) }
{
    if is_newest { pair.new } else { pair.old }
}

// Writes the newest or the oldest candidate of each word that has two, by the parity of its number.
fn put_pairs(bytes: &mut [u8], words: &Words, even: bool, odd: bool)
    requires size { length bytes.old ≡ 8 * length words.now }
    requires single { (i : ℕ) → is_single (cell words.now i) ≡ true
        → cell words.now i ≡ Cell.Single (word_at bytes.old i) }
    ensures { (i : ℕ) → word_at bytes.new i ≡ by_parity even odd words.now i }
{
    for pair in words.pairs() {
        put_word(
            bytes,
            pair.word,
            one_of(pair, of_parity(pair.word, even, odd)),
        );
    }
}

// The bytes of the newest or the oldest candidate of each word, by the parity of its number.
fn parity_bytes(alloc: Global, words: &Words, even: bool, odd: bool) -> Result<Vec<u8>, AllocError>
    requires { length words.now % 32 ≡ 0 }
    ensures size { IfOk result (λ bytes. length bytes.items ≡ 8 * length words.now) }
    ensures words { IfOk result (λ bytes. (i : ℕ)
        → word_at bytes.items i ≡ by_parity even odd words.now i) }
{
    let mut bytes = bytes_of_words(alloc, words.numbers())?;
    put_pairs(&mut bytes, words, even, odd);
    Ok(bytes)
}

// Whether the next draw is odd.
fn is_odd(draws: &mut SplitMix64) -> bool
    ensures draw { result ≡ ((mix_u64 draws.old).0 % 2 == 1) }
    ensures after { draws.new ≡ (mix_u64 draws.old).1 }
{
    draws.next_word() % 2 == 1
}

// Writes the candidate of a word by the next draw.
fn put_drawn(bytes: &mut [u8], word: usize, cell: Cell, draws: &mut SplitMix64)
    requires { 8 * word + 8 ≤ length bytes.old }
    ensures word { (k : ℕ) (seed : ℕ) → draws.old ≡ state_after seed k
        → word_at bytes.new word ≡ (if is_odd_draw seed k then newest cell else oldest cell) }
    ensures others { (i : ℕ) → i ≢ word → word_at bytes.new i ≡ word_at bytes.old i }
    ensures after { (k : ℕ) (seed : ℕ) → draws.old ≡ state_after seed k
        → draws.new ≡ state_after seed (k + 1) }
{
    put_word(bytes, word, candidate(cell, is_odd(draws)));
}

// Writes one candidate of each word that has two, by the draws from a seed.
fn put_draws(bytes: &mut [u8], words: &Words, seed: u64)
    requires size { length bytes.old ≡ 8 * length words.now }
    requires single { (i : ℕ) → is_single (cell words.now i) ≡ true
        → cell words.now i ≡ Cell.Single (word_at bytes.old i) }
    ensures { (i : ℕ) → word_at bytes.new i ≡ by_draws seed words.now i }
{
    let mut draws = SplitMix64::seed_from_u64(seed);
    let mut from = 0;
    while let Some(word) = words.next_two(from) {
        put_drawn(bytes, word, words.cell_of(word), &mut draws);
        from = word + 1;
    }
}

// The bytes of one candidate of each word, by the draws from a seed.
fn seeded_bytes(alloc: Global, words: &Words, seed: u64) -> Result<Vec<u8>, AllocError>
    requires { length words.now % 32 ≡ 0 }
    ensures size { IfOk result (λ bytes. length bytes.items ≡ 8 * length words.now) }
    ensures words { IfOk result (λ bytes. (i : ℕ)
        → word_at bytes.items i ≡ by_draws seed words.now i) }
{
    let mut bytes = bytes_of_words(alloc, words.numbers())?;
    put_draws(&mut bytes, words, seed);
    Ok(bytes)
}

// The bytes of one candidate of each word.
pub(crate) fn chosen_bytes(
    alloc: Global,
    words: &Words,
    choice: Choice,
) -> Result<Vec<u8>, AllocError>
    requires { length words.now % 32 ≡ 0 }
    ensures image { IfOk result (λ bytes. IsImageOf words.now bytes.items) }
    ensures words { IfOk result (λ bytes. (i : ℕ)
        → word_at bytes.items i ≡ chosen choice words.now i) }
{
    match choice {
        Choice::Oldest => parity_bytes(alloc, words, false, false),
        Choice::Newest => parity_bytes(alloc, words, true, true),
        Choice::Even => parity_bytes(alloc, words, true, false),
        Choice::Odd => parity_bytes(alloc, words, false, true),
        Choice::Seed(seed) => seeded_bytes(alloc, words, seed),
    }
}
