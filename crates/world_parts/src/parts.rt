//! The parts of a World, and what is written into them where calls return.
ghost use Rattle.std.specs.Prelude.{◌≡◌, ◌<◌, ◌+◌, ◌++◌, ◌∷◌, ◌^◌, [], false, vec_len};
ghost use Rattle.std.specs.Vec.{vec_capacity};
ghost use Rattle.world_view_laws.specs.posix_tables.Open.{same_who};
ghost use Rattle.posix_types.specs.declared.call.Who.{Who};
ghost use Rattle.world_view_laws.specs.in_flight.Counters.{count_for, IsCounted};
ghost use Rattle.world_parts.specs.Adds.{IsAdded, MayAdd};

use crate::outcomes::Unfinished;
use layout_model::Draft;
use pm_lines::Line;
use posix_types::{Call, Item, Mode, Outcome, Scripts, Shape, Tree, Who};
use world_view_laws::{
    Counters, FileTable, Geometry, JobOut, KSplit, OpenFiles, Over, Staging, calls_made, count_call,
};

/// All that a World keeps. Between its calls it is `IsKept`, while it is usable.
#[derive(Drop)]
pub struct Parts {
    /// The volume on its device.
    pub k: KSplit,
    /// The open files of each caller.
    pub tables: OpenFiles,
    /// The runs of staging blocks that are out, and how many blocks each staging file was given.
    pub staging: Staging,
    /// The size of each file, and the runs that are staged of it.
    pub files: FileTable,
    /// The geometry of the volume.
    pub geometry: Geometry,
    /// The base of the sequence numbers of this lap's entries.
    pub base: u64,
    /// The tree at the start of the history.
    pub tree: Tree,
    /// The sizes of the file system.
    pub shape: Shape,
    pub mode: Mode,
    pub scripts: Scripts,
    /// The calls that returned, in the order of their returns.
    pub history: Vec<Item>,
    /// How many calls of each caller returned.
    pub counters: Counters,
    /// How long the history was when this lap began.
    pub settled: usize,
    /// The pairs of slot and entry that were given to `finish` in this lap.
    pub claims: Vec<(u64, Draft)>,
    /// The jobs that are out, in the order of their beginning.
    pub pending: Vec<JobOut>,
    /// The call that lost its power in `begin`.
    pub unfinished: Option<Unfinished>,
    /// Room for the calls that a power loss leaves unfinished, kept empty.
    pub spare: Vec<(Who, Call)>,
    /// Why the round is over, if it is.
    pub over: Option<Over>,
    /// How many jobs of this round were given up.
    pub given_up: u32,
    /// How many calls acted.
    pub acts: u64,
    /// Whether the log's lines are out.
    pub lines_out: bool,
    /// The lines that came home once the power had gone.
    pub home: Vec<Line>,
    /// The words of the lines when they went out, eight for each.
    pub first: Vec<u64>,
    /// Whether the power was lost.
    pub lost: bool,
    /// Whether the World may go on: no call ran out of memory on the way.
    pub usable: bool,
}

// The next call of a caller returned: one item more, and one call more is counted. There is room for the item.
fn add_item(
    history: &mut Vec<Item>,
    counters: &mut Counters,
    who: Who,
    call: Call,
    outcome: Outcome,
)
    requires caller { IsCounted who }
    requires few { count_for counters.old.setup counters.old.threads who + 1 < 2 ^ 32 }
    requires room { vec_len history.old < vec_capacity history.old }
    ensures items { history.new.items ≡ history.old.items ++ record {
      who = who;
      index = count_for counters.old.setup counters.old.threads who;
      call = call;
      reply = outcome.reply;
      room = outcome.room;
    } ∷ [] }
    ensures len { vec_len history.new ≡ vec_len history.old + 1 }
    ensures capacity { vec_capacity history.new ≡ vec_capacity history.old }
    ensures own { count_for counters.new.setup counters.new.threads who
        ≡ count_for counters.old.setup counters.old.threads who + 1 }
    ensures others { (other : Who) → same_who who other ≡ false
        → count_for counters.new.setup counters.new.threads other
        ≡ count_for counters.old.setup counters.old.threads other }
{
    let index = calls_made(counters, who) as u32;
    history.push_reserved(Item {
        who,
        index,
        call,
        reply: outcome.reply,
        room: outcome.room,
    });
    count_call(counters, who);
}

/// The next call of a caller returned with this outcome: its item is added, and it is one act.
pub fn add(p: &mut Parts, who: Who, call: Call, outcome: Outcome)
    requires { MayAdd p.old who }
    ensures { IsAdded who call outcome p.old p.new }
{
    add_item(&mut p.history, &mut p.counters, who, call, outcome);
    p.acts += 1;
}
