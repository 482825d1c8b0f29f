//! Picks: which thread comes next, of those that can run.
ghost use Rattle.std.specs.Prelude.{◌≡◌, ◌≢◌, ◌%◌, ◌++◌, ◌∷◌, ℕ, List, [], length, None, Some, Contains, IfSome, false, slice_get, true};
ghost use Rattle.rand_xoshiro.specs.SplitMix64.{mix_u64};
ghost use Rattle.crash_spec.specs.Orders.{IsInTurn, none_picked};
ghost use Rattle.schedule.specs.Picking.{GoesTo, IsListed, IsLower, IsLowestFrom, IsNotLower, IsPlace, IsSoFar, PicksNext};
ghost use Rattle.schedule.specs.Seen.{seen_order};

use crate::order::Order;
use rand_core::SeedableRng;
use rand_core::utils::NextWord;
use rand_xoshiro::SplitMix64;

/// What an order takes its picks from.
#[derive(Drop)]
pub enum Source {
    List(Vec<u64>),
    Seed(SplitMix64),
    Round,
}

/// An order, with how far it came: how many numbers of its list were used or passed over, and the thread that was
/// picked last.
#[derive(Drop)]
pub struct Picker {
    source: Source,
    place: usize,
    last: Option<u32>,
}

// A number, where it is among these.
fn among(numbers: &[u32], n: u64) -> Option<u32>
    ensures there { IfSome result (λ m. (m ≡ n) × Contains numbers.now n) }
    ensures absent { result ≡ None → ¬ Contains numbers.now n }
{
    for other in numbers {
        if u64::from(*other) == n {
            return Some(*other);
        }
    }
    None
}

// The first place of a list, from one on, with a number that is among these, and the number.
fn place_among(list: &[u64], from: usize, numbers: &[u32]) -> Option<(usize, u32)>
    ensures { IsPlace list.now numbers.now from result }
{
    for k in from..list.len() {
        if let Some(n) = among(numbers, list[k]) {
            return Some((k, n));
        }
    }
    None
}

// Whether a number is the first or below the one that was found.
fn is_lower(n: u32, found: Option<u32>) -> bool
    ensures below { result ≡ true → IsLower n found }
    ensures past { result ≡ false → IsNotLower n found }
{
    match found {
        Some(low) => n < low,
        None => true,
    }
}

// The lowest of the numbers so far and one more, of those that are not below one.
#[tactic(auto, using(crate::proofs::Lowest::lowest_takes, crate::proofs::Lowest::lowest_leaves, crate::proofs::Lowest::lowest_keeps))]
fn lower_of(n: u32, from: u64, found: Option<u32>) -> Option<u32>
    ensures { (xs : List ℕ) → IsLowestFrom xs from found → IsLowestFrom (xs ++ n ∷ []) from result }
{
    if u64::from(n) < from {
        return found;
    }
    if is_lower(n, found) {
        return Some(n);
    }
    found
}

// The lowest number that is not below one.
fn lowest_from(numbers: &[u32], from: u64) -> Option<u32>
    ensures { IsLowestFrom numbers.now from result }
{
    let mut found: Option<u32> = None;
    for n in numbers {
        found = lower_of(*n, from, found);
    }
    found
}

// The lowest number.
#[tactic(auto, using(crate::proofs::Lowest::some_lowest))]
fn lowest(numbers: &[u32]) -> u32
    requires { numbers.now ≢ [] }
    ensures { IsLowestFrom numbers.now 0 (Some result) }
{
    let Some(n) = lowest_from(numbers, 0) else {
        unreachable!()
    };
    n
}

// The next higher number behind one, or else the lowest.
fn behind(low: u32, numbers: &[u32]) -> u32
    requires { numbers.now ≢ [] }
    ensures { IsInTurn numbers.now (Some low) result }
{
    match lowest_from(numbers, u64::from(low) + 1) {
        Some(n) => n,
        None => lowest(numbers),
    }
}

// Round: the next higher number behind the one that was picked last, or else the lowest.
fn in_turn(last: Option<u32>, numbers: &[u32]) -> u32
    requires { numbers.now ≢ [] }
    ensures { IsInTurn numbers.now last result }
{
    match last {
        Some(low) => behind(low, numbers),
        None => lowest(numbers),
    }
}

// The next number of a list that is among these, and those before it are passed over; behind the list, round.
fn by_list(list: &[u64], place: &mut usize, last: Option<u32>, numbers: &[u32]) -> u32
    requires { numbers.now ≢ [] }
    ensures { IsListed list.now numbers.now last place.old place.new result }
{
    match place_among(list, *place, numbers) {
        Some((k, n)) => {
            *place = k + 1;
            n
        }
        None => {
            *place = list.len();
            in_turn(last, numbers)
        }
    }
}

// By the remainder of the next draw.
fn by_draw(draws: &mut SplitMix64, numbers: &[u32]) -> u32
    requires { numbers.now ≢ [] }
    ensures drawn { slice_get numbers.now ((mix_u64 draws.old).0 % length numbers.now) ≡ Some result }
    ensures after { draws.new ≡ (mix_u64 draws.old).1 }
{
    let place = draws.next_word() % numbers.len() as u64;
    numbers[place as usize]
}

// The next number, by what the order takes its picks from.
fn next_of(source: &mut Source, place: &mut usize, last: Option<u32>, numbers: &[u32]) -> u32
    requires { numbers.now ≢ [] }
    ensures { GoesTo numbers.now last source.old place.old source.new place.new result }
{
    match source {
        Source::List(list) => by_list(list, place, last, numbers),
        Source::Seed(draws) => by_draw(draws, numbers),
        Source::Round => in_turn(last, numbers),
    }
}

impl Picker {
    /// The order, of which nothing was picked.
    pub fn new(order: Order) -> Picker
        ensures { IsSoFar result (seen_order order) none_picked }
    {
        let source = match order {
            Order::List(numbers) => Source::List(numbers),
            Order::Seed(seed) => Source::Seed(SplitMix64::seed_from_u64(seed)),
            Order::Round => Source::Round,
        };
        Picker {
            source,
            place: 0,
            last: None,
        }
    }

    /// The next number of a thread by the order, of these, of which there is one: those that can run, by rising
    /// number. Each number of a list is looked at once, and a seed is drawn from once for each pick.
    pub fn pick(&mut self, numbers: &[u32]) -> u32
        requires { numbers.now ≢ [] }
        ensures among { Contains numbers.now result }
        ensures picks { PicksNext numbers.now self.old self.new result }
    {
        let n = next_of(&mut self.source, &mut self.place, self.last, numbers);
        self.last = Some(n);
        n
    }
}
