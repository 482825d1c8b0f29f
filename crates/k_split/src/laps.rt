//! A new lap of the log, and a log that begins anew.
ghost use Rattle.std.specs.Prelude.{◌≡◌, ◌≢◌, ◌+◌, ◌*◌, ◌^◌, ◌≤◌, [], true, false, None, Err};
ghost use Rattle.block_io.specs.pm_model.Powers.{is_on, Steps};
ghost use Rattle.k_split.specs.Answers.{IsCommitPaid, IsPaid};
ghost use Rattle.k_split.specs.Laps.{ClearsLog, HasNextLap, HasSingleLog, IsBaseAnswer, IsBaseChange, IsRestartAnswer, LosesLog, next_base};

use crate::changes::land_plan;
use crate::faults::KFault;
use crate::state::KSplit;
use block_io::zero_lines;
use k_map_plans::Commit;
use pm_lines::Power;

impl KSplit {
    // Sets the log base. Nothing has gathered, and it is landed at once.
    fn set_base(&mut self, base: u64, power: &mut Power) -> Result<(), KFault>
        requires awake { self.old.lost ≡ true → is_on power.old ≡ false }
        requires empty { self.old.lost ≡ false → self.old.lines ≡ [] }
        requires least { 1 ≤ base }
        requires most { base ≤ 2 ^ 63 }
        ensures steps { Steps 256 power.old power.new }
        ensures paid { IsPaid None power.old power.new result }
        ensures answer { IsBaseChange base self.old self.new result }
        ensures memory { result ≢ Err KFault.NoMemory }
    {
        if !power.on() {
            self.lost = true;
            return Err(KFault::PowerLost);
        }
        self.tables.set_base(&mut self.batch, base);
        land_plan(
            &mut self.batch,
            &mut self.pm,
            &self.tables,
            &mut self.lost,
            power,
        )
    }

    /// Begins a new lap of the log, as one transaction: its base rises by the number of log lines, so
    /// that entries of the lap before are valid no more. It takes no memory, and at most 256 steps.
    ///
    /// The log base is at most 2^63 less the number of log lines, and nothing has gathered. `PowerLost` comes exactly where the
    /// power is off at the return: then each image has the old base or the new one.
    pub fn new_lap(&mut self, power: &mut Power) -> Commit
        requires awake { self.old.lost ≡ true → is_on power.old ≡ false }
        requires empty { self.old.lost ≡ false → self.old.lines ≡ [] }
        requires next { self.old.lost ≡ false → HasNextLap self.old }
        ensures steps { Steps 256 power.old power.new }
        ensures paid { IsCommitPaid power.new result }
        ensures answer { IsBaseAnswer (next_base self.old.volume) self.old self.new result }
    {
        if !power.on() {
            self.lost = true;
            return Commit::PowerLost;
        }
        let base = self.tables.base() + u64::from(self.tables.geometry().log);
        match self.set_base(base, power) {
            Ok(()) => Commit::Done,
            Err(_) => Commit::PowerLost,
        }
    }

    // Sets the log's lines to zero. With power left they are, and that is durable.
    fn clear_log(&mut self, power: &mut Power)
        requires on { is_on power.old ≡ true }
        requires awake { self.old.lost ≡ false }
        requires single { HasSingleLog self.old }
        ensures steps { Steps (9 * self.old.volume.geometry.log + 1) power.old power.new }
        ensures same { self.new ≡ record self.old { cells = self.new.cells; lost = self.new.lost } }
        ensures loses { LosesLog self.old.volume self.old.cells self.new.cells }
        ensures done { is_on power.new ≡ true → ClearsLog self.old.volume self.old.cells self.new.cells }
        ensures on { is_on power.new ≡ true → self.new.lost ≡ false }
        ensures off { is_on power.new ≡ false → self.new.lost ≡ true }
    {
        let geometry = self.tables.geometry();
        let count = u64::from(geometry.log);
        let first = geometry.log_line(0);
        zero_lines(&mut self.pm, power, first, count);
        if !power.on() {
            self.lost = true;
        }
    }

    /// Begins the log anew: its lines become zero and durable, then its base becomes 1, as one
    /// transaction. It takes no memory, and at most 9 steps a line and 257.
    ///
    /// No line of the log is lent, each of their words has one candidate, and nothing has gathered. `PowerLost` comes exactly
    /// where the power is off at the return: then each image has the log's lines as before, or some of
    /// their words, and the old base; or lines of zeros, and either base.
    pub fn restart_log(&mut self, power: &mut Power) -> Commit
        requires awake { self.old.lost ≡ true → is_on power.old ≡ false }
        requires empty { self.old.lost ≡ false → self.old.lines ≡ [] }
        requires single { self.old.lost ≡ false → HasSingleLog self.old }
        ensures steps { Steps (9 * self.old.volume.geometry.log + 257) power.old power.new }
        ensures paid { IsCommitPaid power.new result }
        ensures answer { IsRestartAnswer self.old self.new result }
    {
        if !power.on() {
            self.lost = true;
            return Commit::PowerLost;
        }
        self.clear_log(power);
        if self.lost {
            return Commit::PowerLost;
        }
        match self.set_base(1, power) {
            Ok(()) => Commit::Done,
            Err(_) => Commit::PowerLost,
        }
    }
}
