//! The order of threads, by the words of the command line.
ghost use Rattle.std.specs.Prelude.{◌≡◌, IfOk};
ghost use Rattle.command_line.specs.Seen.{seen_order as meant_order};
ghost use Rattle.schedule.specs.Seen.{seen_order};

use schedule::Order;
use script_text::read_numbers;
use std::alloc::{AllocError, Global};

/// In which order the threads of a script are picked.
#[derive(Drop)]
pub enum OrderWords<'a> {
    /// By the numbers of this word.
    List(&'a String),
    /// By draws from this seed.
    Seed(u64),
    /// In turn.
    Round,
}

/// The order that the words say.
pub fn read_order(alloc: Global, words: &OrderWords<'_>) -> Result<Order, AllocError>
    ensures { IfOk result (λ order. seen_order order ≡ meant_order words.now) }
{
    match words {
        OrderWords::List(word) => match read_numbers(alloc, word.as_bytes())? {
            Some(numbers) => Ok(Order::List(numbers)),
            None => Ok(Order::List(Vec::new(alloc))),
        },
        OrderWords::Seed(seed) => Ok(Order::Seed(*seed)),
        OrderWords::Round => Ok(Order::Round),
    }
}
