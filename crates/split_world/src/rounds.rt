//! The rounds of a World: one begins, and ends at a checkpoint, with the run, or with the power.
ghost use Rattle.std.specs.Prelude.{◌≡◌, ◌^◌, true, false, [], IfOk, OnErr};
ghost use Rattle.world_rounds.specs.round_laws.pm_model.Powers.{Steps};
ghost use Rattle.world_begins.specs.world_parts.Answers.{IsCheckpoint, IsEnded};
ghost use Rattle.world_begins.specs.world_parts.world_view_laws.Losses.{KeepsActed, MayCrash};
ghost use Rattle.world_begins.specs.world_parts.world_view_laws.Rounds.{IsLeft, IsRoundBegun, MayCheckpoint, MayUnmount};

use crate::laws;
use crate::world::World;
use pm_lines::{Line, Power};
use std::alloc::Global;
use world_begins::{Crashed, Ended, NoMemory, lose};
use world_rounds::{
    Commit, FilledJob, Job, begin_lines, crash_lost, end_lines, end_run, keep_lines,
};

impl World {
    /// Begins a round: the log's lines, by rising slot, at most 4,096, all words of them single, and the base of their
    /// sequence numbers, at most 2^63. They are at home. Once the power was lost they stay there: no line is answered.
    ///
    /// # Errors
    ///
    /// Out of memory: nothing changed.
    pub fn begin_round(&mut self, alloc: Global) -> Result<(Vec<Line>, u64), NoMemory>
        requires usable { self.old.usable ≡ true }
        requires home { self.old.lines_out ≡ false }
        ensures begun { self.old.lost ≡ false
            → IfOk result (λ out. IsRoundBegun self.old self.new out.0.items out.1) }
        ensures gone { self.old.lost ≡ true
            → IfOk result (λ out. (out.0.items ≡ []) × (out.1 ≡ self.old.base) × (self.new ≡ self.old)) }
        ensures err { OnErr result (self.new ≡ self.old) }
    {
        if self.parts.lost {
            return Ok((Vec::new(alloc), self.parts.base));
        }
        begin_lines(&mut self.parts, alloc)
    }

    /// Ends a round that is over: the lines go home, all that is staged is published, so that each claim of the lap is
    /// applied by its file, and the next lap of the log begins. No job is out, and the lines are the round's and hold
    /// the claims whole; where a job was given up there is a claim.
    ///
    /// `PowerLost` comes exactly where the power is off at the return, or was lost. The lines are at home then, so a
    /// crash asks for none; the history, the claims and what ended the round stay. Of the device no more is said than
    /// what `crash` says of it: it keeps the promise for the history, and the call that had lost the power before, if
    /// one had.
    ///
    /// # Errors
    ///
    /// Out of memory: the World is only to be dropped.
    ///
    /// # Steps
    ///
    /// At most 2^26, and none where the power was lost before.
    pub fn checkpoint(
        &mut self,
        alloc: Global,
        lines: Vec<Line>,
        power: &mut Power,
    ) -> Result<Commit, NoMemory>
        requires usable { self.old.usable ≡ true }
        requires may { MayCheckpoint self.old lines.items }
        ensures steps { Steps (2 ^ 26) power.old power.new }
        ensures spared { self.old.lost ≡ true → power.new ≡ power.old }
        ensures answer { IsCheckpoint self.old self.new power.new result }
    {
        if self.parts.lost {
            keep_lines(&mut self.parts, lines);
            return Ok(Commit::PowerLost);
        }
        end_lines(&mut self.parts, alloc, lines, power)
    }

    /// Ends a run: the lines go home, all that is staged is published, and the log is empty. No job is out, the lines
    /// are the round's and hold the claims whole, and every script has ended. Lost exactly where the power is off at
    /// the return, or was lost.
    ///
    /// # Errors
    ///
    /// Out of memory.
    ///
    /// # Steps
    ///
    /// At most 2^26.
    pub fn unmount(
        self,
        alloc: Global,
        lines: Vec<Line>,
        power: &mut Power,
    ) -> Result<Ended, NoMemory>
        requires usable { self.usable ≡ true }
        requires may { MayUnmount self lines.items }
        ensures steps { Steps (2 ^ 26) power.old power.new }
        ensures ended { IsEnded self power.new result }
    {
        laws::an_unmount_ends_a_run();
        let parts = self.parts;
        if parts.lost {
            return Ok(Ended::Lost(crash_lost(parts, lines, Vec::new(alloc), Vec::new(alloc))));
        }
        end_run(parts, alloc, lines, power)
    }

    /// What a power loss now leaves, once lines and blocks are put back as they are. `out` and `filled` are together all
    /// jobs that are out, but for those that ended after the loss. The lines are the round's, as far as the claims and
    /// these jobs came, or none where they are at home. The calls of jobs that cannot have acted need not be among those
    /// that the device keeps the promise for. It takes no memory.
    pub fn crash(self, lines: Vec<Line>, out: Vec<Job>, filled: Vec<FilledJob>) -> Crashed
        requires usable { self.usable ≡ true }
        requires may { MayCrash self lines.items out.items filled.items }
        ensures left { IsLeft self result.pm result.history.items result.unfinished.items }
        ensures acted { KeepsActed self lines.items filled.items result.pm }
    {
        let mut parts = self.parts;
        lose(&mut parts);
        crash_lost(parts, lines, out, filled)
    }
}
