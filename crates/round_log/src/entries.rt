//! An entry in its line.
ghost use Rattle.std.specs.Prelude.{◌≡◌, ◌<◌, ℕ, Some, true, if◌then◌else◌};
ghost use Rattle.oplog_entry.specs.pm_model.Powers.{is_on, Steps};
ghost use Rattle.oplog_entry.specs.declared.claims.Mark.TheVariants.{Lost, Written};
ghost use Rattle.oplog_entry.specs.EntryLines.{entry_words, IsSingle};
ghost use Rattle.round_log.specs.Stores.{HasStored, Persists};

use image_layout::u64_at;
use layout_model::Draft;
use oplog_entry::encode;
use pm_lines::{Line, Power};

// Stores the words of an entry into a line. Without power the rest of the steps do nothing.
pub(crate) fn store_entry(line: &mut Line, power: &mut Power, draft: &Draft, seq: u64)
    requires { IsSingle line.old.cells }
    ensures place { line.new.place ≡ line.old.place }
    ensures steps { Steps 8 power.old power.new }
    ensures took { is_on power.new ≡ true → (given : ℕ) → power.old.given ≡ Some given
        → power.old.taken < power.new.taken }
    ensures stored { HasStored line.old.cells (entry_words draft.now seq) (is_on power.new) line.new.cells }
{
    let bytes = encode(draft, seq);
    for word in 0..8 {
        line.store_word(power, word, u64_at(&bytes, 8 * word as usize));
    }
}

// Flushes a line and fences it, and says whether the power lasted.
pub(crate) fn persist_line(line: &mut Line, power: &mut Power) -> bool
    ensures on { result ≡ is_on power.new }
    ensures place { line.new.place ≡ line.old.place }
    ensures steps { Steps 2 power.old power.new }
    ensures took { is_on power.new ≡ true → (given : ℕ) → power.old.given ≡ Some given
        → power.old.taken < power.new.taken }
    ensures holds { (seq : ℕ) → Persists (if result then Written else Lost) seq (is_on power.old)
        line.old.cells line.new.cells }
{
    line.flush(power);
    line.fence(power);
    power.on()
}
