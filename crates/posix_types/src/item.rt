//! The items of a history.
ghost use Rattle.std.specs.Prelude.{◌≡◌};

use crate::call::{Call, Who};
use crate::reply::{Reply, Room};
use std::alloc::AllocError;

/// What a call gave: its reply and, exactly with ENOSPC, what it needed and what was left.
#[derive(Drop)]
pub struct Outcome {
    pub reply: Reply,
    pub room: Option<Room>,
}

impl Clone for Outcome {
    ghost is_clone = { λ a b. b ≡ a };

    fn clone(&self) -> Result<Outcome, AllocError> {
        let reply = self.reply.clone()?;
        Ok(Outcome {
            reply,
            room: self.room,
        })
    }
}

/// A call of a history that returned: who made it, its place among the calls of that script from 0,
/// the call, its reply, and the room exactly with ENOSPC.
#[derive(Drop)]
pub struct Item {
    pub who: Who,
    pub index: u32,
    pub call: Call,
    pub reply: Reply,
    pub room: Option<Room>,
}

impl Clone for Item {
    ghost is_clone = { λ a b. b ≡ a };

    fn clone(&self) -> Result<Item, AllocError> {
        let reply = self.reply.clone()?;
        let call = self.call.clone()?;
        Ok(Item {
            who: self.who,
            index: self.index,
            call,
            reply,
            room: self.room,
        })
    }
}
