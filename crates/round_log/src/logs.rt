//! The log, and an append in its steps.
ghost use Rattle.std.specs.Prelude.{◌≡◌, ◌≤◌, ◌<◌, ◌+◌, ◌^◌, ℕ, Some, true, length, if◌then◌else◌};
ghost use Rattle.oplog_entry.specs.pm_model.Powers.{is_on, Steps};
ghost use Rattle.oplog_entry.specs.declared.claims.Mark.TheVariants.{Lost, Written};
ghost use Rattle.oplog_entry.specs.EntryLines.{entry_words, IsSingle};
ghost use Rattle.oplog_entry.specs.LogLines.{line_at};
ghost use Rattle.round_log.specs.Rounds.{ChangesLine, IsClaimed};
ghost use Rattle.round_log.specs.Stores.{HasStored, Persists};

use crate::entries::{persist_line, store_entry};
use layout_model::Draft;
use oplog_entry::Full;
use pm_lines::{Line, Power};
use std::marker::Model;

/// The log of a round. Contracts see a `RoundView`.
#[derive(Drop)]
pub struct RoundLog {
    lines: Vec<Line>,
    base: u64,
    tail: u32,
}

impl Model for RoundLog {
    ghost use Rattle.round_log.specs.Rounds.{IsRound, RoundView};

    ghost Value = { RoundView };

    ghost view = { λ log. record { lines = log.lines.items; base = log.base; tail = log.tail } };

    ghost invariant = { λ log.
        IsRound (record { lines = log.lines.items; base = log.base; tail = log.tail }) };
}

impl RoundLog {
    /// The log of these lines, by rising slot: nothing is claimed. There are fewer than 2^32, and the sequence
    /// number of the first is at most 2^63.
    pub fn open(lines: Vec<Line>, base: u64) -> RoundLog
        requires few { length lines.items < 2 ^ 32 }
        requires small { base ≤ 2 ^ 63 }
        ensures { result ≡ record { lines = lines.items; base = base; tail = 0 } }
    {
        RoundLog {
            lines,
            base,
            tail: 0,
        }
    }

    /// Claims the next slot. It takes no step.
    ///
    /// # Errors
    ///
    /// All slots are claimed: how many there are.
    pub fn claim(&mut self) -> Result<u32, Full>
        ensures { IsClaimed self.old self.new result }
    {
        let capacity = self.lines.len() as u64;
        if u64::from(self.tail) < capacity {
            let slot = self.tail;
            self.tail += 1;
            Ok(slot)
        } else {
            Err(Full {
                claimed: u64::from(self.tail),
                capacity,
            })
        }
    }

    /// Stores the words of an entry into the line of a slot, each word of which has one candidate. Its sequence
    /// number is the base plus the slot. At most 8 steps, and where the power lasts one at least.
    pub fn store(&mut self, slot: u32, draft: &Draft, power: &mut Power)
        requires slot { slot < length self.old.lines }
        requires single { IsSingle (line_at self.old.lines slot).cells }
        ensures steps { Steps 8 power.old power.new }
        ensures took { is_on power.new ≡ true → (given : ℕ) → power.old.given ≡ Some given
            → power.old.taken < power.new.taken }
        ensures line { ChangesLine slot self.old self.new }
        ensures stored { HasStored (line_at self.old.lines slot).cells
            (entry_words draft.now (self.old.base + slot)) (is_on power.new)
            (line_at self.new.lines slot).cells }
    {
        let seq = self.base + u64::from(slot);
        store_entry(&mut self.lines[slot as usize], power, draft, seq);
    }

    /// Makes the line of a slot durable, and says whether the power lasted: then it holds the entry that was
    /// stored into it, whole, and a step was taken. At most 2 steps.
    pub fn persist(&mut self, slot: u32, power: &mut Power) -> bool
        requires slot { slot < length self.old.lines }
        ensures on { result ≡ is_on power.new }
        ensures steps { Steps 2 power.old power.new }
        ensures took { is_on power.new ≡ true → (given : ℕ) → power.old.given ≡ Some given
            → power.old.taken < power.new.taken }
        ensures line { ChangesLine slot self.old self.new }
        ensures holds { Persists (if result then Written else Lost) (self.old.base + slot)
            (is_on power.old) (line_at self.old.lines slot).cells
            (line_at self.new.lines slot).cells }
    {
        persist_line(&mut self.lines[slot as usize], power)
    }

    /// The lines, as they are.
    pub fn close(self) -> Vec<Line>
        ensures { result.items ≡ self.lines }
    {
        self.lines
    }
}
