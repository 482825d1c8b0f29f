//! How an entry is written into a line.
ghost use Rattle.std.specs.Prelude.{◌≡◌, ◌<◌, ◌^◌, true, if◌then◌else◌};
ghost use Rattle.oplog_entry.specs.image_model.pm_model.Powers.{is_on, Steps};
ghost use Rattle.oplog_entry.specs.EntryLines.{Holds, IsSingle};

use image_layout::u64_at;
use layout_model::Draft;
use oplog_entry::{Mark, encode};
use pm_lines::{Line, Power};

// Stores the words of an entry into a line, and makes them durable. Without power the rest of the steps do nothing.
pub(crate) fn write_entry(line: &mut Line, power: &mut Power, draft: &Draft, seq: u64) -> bool
    requires { IsSingle line.old.cells }
    ensures on { result ≡ is_on power.new }
    ensures holds { Holds (if result then Mark.Written else Mark.Lost) draft.now seq line.old.cells line.new.cells }
    ensures place { line.new.place ≡ line.old.place }
    ensures steps { Steps 10 power.old power.new }
{
    let bytes = encode(draft, seq);
    for word in 0..8 {
        line.store_word(power, word, u64_at(&bytes, 8 * word as usize));
    }
    line.flush(power);
    line.fence(power);
    power.on()
}
