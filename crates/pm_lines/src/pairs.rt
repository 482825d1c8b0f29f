// The words of a memory by their numbers and their pairs. A word with one candidate is its number;
// of one with two the number leads to its pair.
ghost use Rattle.std.specs.Prelude.{◌≡◌, ◌≢◌, ◌+◌, ◌<◌, ◌≤◌, ℕ, length, MatchOption, vec_capacity};
ghost use Rattle.pm_lines.specs.Pairs.{word_cell, IsLinked, IsPlace, HasNoPair, IsNextPair, AddsPair, CopiesNumbers, SwapsPairs, DropsPair};

// The two candidates of a word.
#[derive(Clone, Copy, Debug)]
pub(crate) struct Pair {
    pub(crate) word: usize,
    pub(crate) old: u64,
    pub(crate) new: u64,
}

// The place of the word's pair, if it has one.
pub(crate) fn place_of(values: &[u64], pairs: &[Pair], word: usize) -> Option<usize>
    requires in_range { word < length values.now }
    requires linked { IsLinked values.now pairs.now }
    ensures { MatchOption result (HasNoPair pairs.now word) (IsPlace pairs.now word) }
{
    let number = values[word];
    if number > u64::MAX - pairs.len() as u64 {
        let place = (u64::MAX - number) as usize;
        if pairs[place].word == word {
            return Some(place);
        }
    }
    None
}

// The next word that has a pair, from a word on.
pub(crate) fn next_pair(values: &[u64], pairs: &[Pair], from: usize) -> Option<usize>
    requires { IsLinked values.now pairs.now }
    ensures { MatchOption result
        ((i : ℕ) → from ≤ i → i < length values.now → HasNoPair pairs.now i)
        (IsNextPair values.now pairs.now from) }
{
    if pairs.is_empty() {
        return None;
    }
    for word in from..values.len() {
        if place_of(values, pairs, word).is_some() {
            return Some(word);
        }
    }
    None
}

// Replaces the numbers from the first on.
pub(crate) fn copy_numbers(values: &mut Vec<u64>, first: usize, part: &[u64])
    requires { first + length part.now ≤ length values.old.items }
    ensures { CopiesNumbers first part.now values.old.items values.new.items }
{
    values[first..first + part.len()].copy_from_slice(part);
}

// Gives the word a pair, behind the others.
pub(crate) fn add_pair(values: &mut Vec<u64>, pairs: &mut Vec<Pair>, word: usize, value: u64)
    requires in_range { word < length values.old.items }
    requires room { length pairs.old.items < vec_capacity pairs.old }
    ensures adds { AddsPair word value values.old.items pairs.old.items
        values.new.items pairs.new.items }
    ensures capacity { vec_capacity pairs.old ≤ vec_capacity pairs.new }
{
    let place = pairs.len() as u64;
    let old = values[word];
    // There is room, so that it takes no memory and never fails.
    let _ = pairs.push(Pair {
        word,
        old,
        new: value,
    });
    values[word] = u64::MAX - place;
}

// Lets two pairs change places.
pub(crate) fn swap_pairs(values: &mut Vec<u64>, pairs: &mut Vec<Pair>, j: usize, k: usize)
    requires first { j < length pairs.old.items }
    requires second { k < length pairs.old.items }
    requires linked { IsLinked values.old.items pairs.old.items }
    ensures swaps { SwapsPairs j k values.old.items pairs.old.items
        values.new.items pairs.new.items }
    ensures capacity { vec_capacity pairs.new ≡ vec_capacity pairs.old }
{
    let first = pairs[j].word;
    let second = pairs[k].word;
    pairs.swap(j, k);
    values[first] = u64::MAX - k as u64;
    values[second] = u64::MAX - j as u64;
}

// Takes the pair at a place away. Its word keeps the newer candidate.
pub(crate) fn drop_pair(values: &mut Vec<u64>, pairs: &mut Vec<Pair>, place: usize)
    requires in_range { place < length pairs.old.items }
    requires linked { IsLinked values.old.items pairs.old.items }
    ensures drops { DropsPair place values.old.items pairs.old.items
        values.new.items pairs.new.items }
    ensures capacity { vec_capacity pairs.new ≡ vec_capacity pairs.old }
{
    let pair = pairs.swap_remove(place);
    values[pair.word] = pair.new;
    if place < pairs.len() {
        values[pairs[place].word] = u64::MAX - place as u64;
    }
}
