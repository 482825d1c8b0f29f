//! The bits of a slice of words, 64 a word.
ghost use Rattle.std.specs.Prelude.{◌≡◌, ◌≢◌, ℕ, ◌+◌, ◌*◌, ◌<◌, ◌≤◌, ◌^◌, ◌&&◌, not, true, false, length, slice_index, bit_or, IfSome, IfNone};
ghost use Rattle.extent_map.specs.extent_model.Counts.{count_below};
ghost use Rattle.extent_map.specs.extent_model.Extents.{is_within};
ghost use Rattle.block_pool.specs.Bits.{is_set as is_set_lem, NoneSet, IsNext};

// Whether the bit at a place is set.
pub(crate) fn is_set(words: &[u64], place: usize) -> bool
    requires { place < 64 * length words.now }
    ensures { result ≡ is_set_lem words.now place }
{
    (words[place / 64] >> (place % 64)) & 1 == 1
}

// Sets the bit at a place.
pub(crate) fn set(words: &mut [u64], place: usize)
    requires { place < 64 * length words.old }
    ensures here { is_set_lem words.new place ≡ true }
    ensures others { (p : ℕ) → p ≢ place → is_set_lem words.new p ≡ is_set_lem words.old p }
{
    words[place / 64] |= 1 << (place % 64);
}

// Clears the bit at a place.
pub(crate) fn clear(words: &mut [u64], place: usize)
    requires { place < 64 * length words.old }
    ensures here { is_set_lem words.new place ≡ false }
    ensures others { (p : ℕ) → p ≢ place → is_set_lem words.new p ≡ is_set_lem words.old p }
{
    words[place / 64] &= !(1 << (place % 64));
}

// The lowest place from `from` on and before `to` whose bit is set. It looks at each word once.
pub(crate) fn next_set(words: &[u64], from: usize, to: usize) -> Option<usize>
    requires words { to ≤ 64 * length words.now }
    requires few { to < 2 ^ 32 }
    ensures found { IfSome result (λ place. IsNext words.now from to place) }
    ensures none { IfNone result (NoneSet words.now from to) }
{
    let mut place = from;
    while place < to {
        let rest = words[place / 64] >> (place % 64);
        if rest != 0 {
            let found = place + rest.trailing_zeros() as usize;
            return if found < to { Some(found) } else { None };
        }
        place += 64 - place % 64;
    }
    None
}

// How many of the bits before `to` are set.
pub(crate) fn count_set(words: &[u64], to: u32) -> u32
    requires { to ≤ 64 * length words.now }
    ensures { result ≡ count_below (is_set_lem words.now) to }
{
    let mut count = 0;
    for place in 0..to {
        if is_set(words, place as usize) {
            count += 1;
        }
    }
    count
}

// Clears `count` bits from `first` on.
pub(crate) fn clear_run(words: &mut [u64], first: usize, count: usize)
    requires words { first + count ≤ 64 * length words.old }
    requires few { first + count < 2 ^ 32 }
    ensures { (p : ℕ) → is_set_lem words.new p
        ≡ (is_set_lem words.old p && not (is_within first count p)) }
{
    for place in first..first + count {
        clear(words, place);
    }
}

// Sets the bits of the first `count` words that are set in as many other words, and clears these.
pub(crate) fn move_bits(words: &mut [u64], other: &mut [u64], count: usize)
    requires words { count ≤ length words.old }
    requires other { count ≤ length other.old }
    ensures words { (i : ℕ) → i < count
        → slice_index words.new i ≡ bit_or (slice_index words.old i) (slice_index other.old i) }
    ensures none { (i : ℕ) → i < count → slice_index other.new i ≡ 0 }
{
    for place in 0..count {
        words[place] |= other[place];
        other[place] = 0;
    }
}
