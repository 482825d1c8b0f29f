//! The calls of a World: whether one may begin, how it begins, and how its job ends.
ghost use Rattle.std.specs.Prelude.{◌≡◌, ◌≤◌, ◌<◌, ◌^◌, true};
ghost use Rattle.posix_types.specs.declared.call.Mode.{Mode};
ghost use Rattle.world_rounds.specs.round_laws.pm_model.Powers.{Steps};
ghost use Rattle.world_rounds.specs.round_laws.posix_spec.Scripted.{IsSetUp};
ghost use Rattle.world_begins.specs.world_parts.Answers.{IsBegun, IsFinished, IsReady};
ghost use Rattle.world_begins.specs.world_parts.in_flight.Costs.{most_of};
ghost use Rattle.world_begins.specs.world_parts.in_flight.live_model.Standing as standing;
ghost use Rattle.world_begins.specs.world_parts.world_view_laws.Begins.{IsFilledOut};
ghost use Rattle.world_begins.specs.world_parts.world_view_laws.Jobs.{GivesUp, IsOfWorld};
ghost use Rattle.world_begins.specs.world_parts.world_view_laws.Views.{next_of, HasNone};

use crate::world::World;
use pm_lines::Power;
use posix_types::Who;
use std::alloc::Global;
use world_begins::{Begun, Finished, NoMemory, Ready, begin_next, ready_of};
use world_rounds::{FilledJob, Full, finish_off, finish_on, give_up_off, give_up_on, lose_one};

impl World {
    /// Whether a caller can begin its next call. It looks, in this order, at its job, its script, the round and the
    /// jobs of others; once the power went no call waits, since each answers PowerLost. With the log's lines at home no
    /// job is out, so none waits: a round begins before the call does.
    pub fn ready(&self, who: Who) -> Ready
        requires usable { self.now.usable ≡ true }
        ensures { IsReady self.now who result }
    {
        ready_of(&self.parts, who)
    }

    /// Begins the next call of a caller. The log's lines are out, the caller has no job out, and the set-up is done
    /// before a thread begins.
    ///
    /// It answers, in this order: PowerLost; ScriptEnd; RoundOver where the round is over already; Busy; and else
    /// how the call went. A logged call becomes a job, or ends the round where only jobs that are out or runs of
    /// this lap leave too few blocks; a `truncate` that lengthens may end it too, where only jobs that are out leave
    /// too few; so may a write that fills holes of its file. A write may fill such holes, and write in place, which
    /// strict mode never does. Where only jobs that are out are the cause, or holes that cannot be filled, nothing else
    /// changes, nor does it in strict mode; where the staging has no run, the holes stay filled. All memory of a job is
    /// taken here.
    ///
    /// # Errors
    ///
    /// Out of memory: no call sees a change. Nothing was done, or the World is only to be dropped.
    ///
    /// # Steps
    ///
    /// At most 2^26 where the call may move data, and else 512; none where it answers Busy, ScriptEnd or the
    /// RoundOver of a round that is over.
    pub fn begin(&mut self, alloc: Global, who: Who, power: &mut Power) -> Result<Begun, NoMemory>
        requires usable { self.old.usable ≡ true }
        requires out { self.old.lines_out ≡ true }
        requires none { HasNone self.old who }
        requires set_up { IsSetUp self.old.scripts self.old.history who }
        ensures steps { Steps (most_of self.old.start.mode (next_of self.old who)) power.old power.new }
        ensures begun { IsBegun who self.old self.new power.old power.new result }
    {
        if self.parts.lost {
            return Ok(Begun::PowerLost);
        }
        begin_next(&mut self.parts, alloc, who, power)
    }

    /// Finishes a job whose entry stands in the slot of the log: its call has acted, and its item stands at the end of
    /// the history. In sync mode its bytes before the first block of its entry are written in place first, durable. The
    /// job is one of this World, out, and the slot one that it claimed. It takes no memory.
    ///
    /// `PowerLost` comes exactly where the power is off, or was lost: the claim counts, and the call stays unfinished.
    ///
    /// # Steps
    ///
    /// At most 2^26; none in strict mode, nor once the power was lost.
    pub fn finish(&mut self, job: FilledJob, slot: u32, power: &mut Power) -> Finished
        requires usable { self.old.usable ≡ true }
        requires out { self.old.lines_out ≡ true }
        requires job { IsOfWorld self.old job }
        requires slot { slot < self.old.geometry.log }
        ensures steps { Steps (2 ^ 26) power.old power.new }
        ensures spared { self.old.start.mode ≡ Mode.Strict → power.new ≡ power.old }
        ensures off { self.old.lost ≡ true → power.new ≡ power.old }
        ensures finished { IsFinished job slot self.old self.new power.new result }
    {
        if self.parts.lost {
            finish_off(&mut self.parts, job, slot);
            return Finished::PowerLost;
        }
        if !power.on() {
            lose_one(&mut self.parts);
            finish_off(&mut self.parts, job, slot);
            return Finished::PowerLost;
        }
        finish_on(&mut self.parts, job, slot, power)
    }

    /// Gives a job up whose claim found no line left: its call is back at its start, and the round is over, with what
    /// ended it first, also once the power went. It takes no memory and no step.
    pub fn give_up(&mut self, job: FilledJob, full: Full)
        requires usable { self.old.usable ≡ true }
        requires out { self.old.lines_out ≡ true }
        requires job { IsOfWorld self.old job }
        requires full { full.capacity ≤ full.claimed }
        requires capacity { full.capacity ≡ self.old.geometry.log }
        ensures given { (p : standing.JobOut) → IsFilledOut self.old p job → GivesUp full p self.old self.new }
    {
        if self.parts.lost {
            give_up_off(&mut self.parts, job, full);
            return;
        }
        give_up_on(&mut self.parts, job, full);
    }
}
