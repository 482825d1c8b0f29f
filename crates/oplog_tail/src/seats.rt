//! A seat of a log: what one thread appends with.
ghost use Rattle.std.specs.Prelude.{◌≡◌, List, ℕ, map};
ghost use Rattle.std.specs.List.Sorted.{IsStrictlyIncreasing};
ghost use Rattle.oplog_tail.specs.Seats.{pairs_of};

use crate::table::LogPlace;
use layout_model::Draft;
use oplog_entry::Full;
use std::marker::Model;

/// A seat of a log. A thread appends with one of its own, and the log is closed with all of them.
#[derive(Drop)]
pub struct LogSeat {
    pub(crate) place: LogPlace,
    pub(crate) claims: Vec<(u64, Draft)>,
    pub(crate) full: Option<Full>,
}

impl Model for LogSeat {
    ghost use Rattle.std.specs.Prelude.{vec_capacity};
    ghost use Rattle.oplog_tail.specs.Seats.{IsResting, SeatView};

    ghost Value = { SeatView };

    ghost view = { λ s. record { log = s.place.table_id; claims = s.place.me.0.claims; full = s.full } };

    ghost invariant = { λ s. IsResting s.place.table_id.slots s.place.me s.claims.items (vec_capacity s.claims) s.full };
}

impl LogSeat {
    /// Its own claims below the capacity, each a number with its entry, by rising number: those that were answered Done
    /// and those whose append lost its power.
    pub fn claims(&self) -> &[(u64, Draft)]
        ensures pairs { result.now ≡ pairs_of self.now.claims }
        ensures rising { IsStrictlyIncreasing (map (λ c. c.number) self.now.claims) }
    {
        self.claims.as_slice()
    }
}
