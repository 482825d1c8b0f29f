//! The workers of a round at work: the set-up's in this thread, and then those of the threads, all at once.
ghost use Rattle.std.specs.Prelude.{◌≡◌, ◌+◌, ◌<◌, ◌≤◌, ℕ, [], length, slice_get, vec_capacity, vec_len, IfOk, Some};
ghost use Rattle.thread_laws.specs.declared.works.Worked as ends;
ghost use Rattle.thread_laws.specs.world_view_laws.pm_model.Powers.{Supply};
ghost use Rattle.thread_laws.specs.world_view_laws.Views.{WorldView};
ghost use Rattle.split_threads.specs.Backs.{AreBack, AllMayStart, AreThreadsBack, HasCameBack, HaveComeInto, MayStart};
ghost use Rattle.split_threads.specs.Dealt.{AreNewThreads, AreNewWorkers};
ghost use denote.Param.Send.{IsSync};

use crate::dealing::Dealt;
use crate::gates::Gate;
use crate::set_up::show_all;
use crate::working::{Own, Shared, work};
use std::alloc::{AllocError, Global};
use std::sync::Wait;
use std::thread::{Threads, join};
use thread_laws::{Worked, a_round_ends_as_it_may};

/// What comes back of a worker: what it had, and the job that it still has.
#[derive(Drop)]
pub(crate) struct Back {
    pub own: Own,
    pub worked: Worked,
}

// One worker does its part.
fn work_own<R: Wait, G: Gate>(rt: &R, alloc: Global, shared: &Shared, gate: &G, own: Own) -> Back
    requires { MayStart shared.now.turn shared.now.log own }
    ensures { HasCameBack shared.now.turn shared.now.log own result }
{
    let mut own = own;
    let worked = work(rt, alloc, shared, gate, &mut own);
    Back { own, worked }
}

// The last of these workers in a thread of its own, beside all others. There is room for what comes back.
#[cycle(starts)]
fn start_all<R: Threads + Wait + Sync, G: Gate + Sync>(
    rt: &R,
    alloc: Global,
    shared: &Shared,
    gate: &G,
    owns: Vec<Own>,
    room: Vec<Back>,
) -> Vec<Back>
    requires may { AllMayStart shared.now.turn shared.now.log owns.items }
    requires room { (room.items ≡ []) × (vec_len owns ≤ vec_capacity room) }
    ensures { HaveComeInto shared.now.turn shared.now.log owns.items (vec_capacity room)
        result.items (vec_capacity result) }
{
    let mut owns = owns;
    let Some(own) = owns.pop() else {
        return room;
    };
    let alone = move || -> Back
        requires { IsSync R.row × IsSync G.row × MayStart shared.now.turn shared.now.log own }
        ensures { HasCameBack shared.entry.now.turn shared.entry.now.log own result }
    { work_own(rt, alloc, shared, gate, own) };
    let others = move || -> Vec<Back>
        requires { IsSync R.row × IsSync G.row
            × AllMayStart shared.now.turn shared.now.log owns.items
            × (room.items ≡ []) × (vec_len owns ≤ vec_capacity room) }
        ensures { HaveComeInto shared.entry.now.turn shared.entry.now.log owns.items
            (vec_capacity room) result.items (vec_capacity result) }
    { start_all(rt, alloc, shared, gate, owns, room) };
    let (back, backs) = join(rt, alone, others);
    let mut backs = backs;
    backs.push_reserved(back);
    backs
}

// Nobody starts: each worker comes back as it is, with no job. There is room.
fn none_started(owns: Vec<Own>, room: Vec<Back>) -> Vec<Back>
    requires room { (room.items ≡ []) × (vec_len owns ≤ vec_capacity room) }
    ensures count { vec_len result ≡ vec_len owns }
    ensures each { (k : ℕ) (back : _) → slice_get result.items k ≡ Some back
        → (slice_get owns.items k ≡ Some back.own) × (back.worked ≡ ends.Worked.Ended) }
    ensures room { vec_capacity room ≤ vec_capacity result }
{
    let mut backs = room;
    for own in owns {
        backs.push_reserved(Back {
            own,
            worked: Worked::Ended,
        });
    }
    backs
}

// The workers of threads, all at once, if the set-up is done. There is room.
fn work_threads<R: Threads + Wait + Sync, G: Gate + Sync>(
    rt: &R,
    alloc: Global,
    shared: &Shared,
    gate: &G,
    owns: Vec<Own>,
    room: Vec<Back>,
) -> Vec<Back>
    requires new { (w : WorldView) × (power : Supply)
        × AreNewThreads w power shared.now.turn shared.now.log owns.items }
    requires room { (room.items ≡ []) × (length owns.items ≤ vec_capacity room) }
    ensures count { length result.items ≡ length owns.items }
    ensures backs { (w : WorldView) (power : Supply)
        → AreNewThreads w power shared.now.turn shared.now.log owns.items
        → AreThreadsBack w power shared.now.turn shared.now.log result.items }
    ensures room { vec_capacity room ≤ vec_capacity result }
{
    a_round_ends_as_it_may();
    let mut owns = owns;
    if show_all(rt, &shared.turn, owns.as_mut_slice()) {
        start_all(rt, alloc, shared, gate, owns, room)
    } else {
        none_started(owns, room)
    }
}

// The set-up's worker, and then all others. There is room.
fn work_all<R: Threads + Wait + Sync, G: Gate + Sync>(
    rt: &R,
    alloc: Global,
    shared: &Shared,
    gate: &G,
    dealt: Dealt,
    room: Vec<Back>,
) -> Vec<Back>
    requires new { (w : WorldView) × (power : Supply)
        × AreNewWorkers w power shared.now.turn shared.now.log dealt }
    requires room { (room.items ≡ []) × (length dealt.owns.items < vec_capacity room) }
    ensures count { length result.items ≡ length dealt.owns.items + 1 }
    ensures backs { (w : WorldView) (power : Supply)
        → AreNewWorkers w power shared.now.turn shared.now.log dealt
        → AreBack w power shared.now.turn shared.now.log result.items }
{
    a_round_ends_as_it_may();
    let Dealt { owns, setup } = dealt;
    let back = work_own(rt, alloc, shared, gate, setup);
    let mut backs = work_threads(rt, alloc, shared, gate, owns, room);
    backs.push_reserved(back);
    backs
}

/// The workers of a round do their parts, and come back: the set-up's, and then all others at once, if it is done.
pub(crate) fn work_round<R: Threads + Wait + Sync, G: Gate + Sync>(
    rt: &R,
    alloc: Global,
    shared: &Shared,
    gate: &G,
    dealt: Dealt,
) -> Result<Vec<Back>, AllocError>
    requires few { length dealt.owns.items ≤ 8 }
    requires new { (w : WorldView) × (power : Supply)
        × AreNewWorkers w power shared.now.turn shared.now.log dealt }
    ensures count { IfOk result (λ backs. length backs.items ≡ length dealt.owns.items + 1) }
    ensures backs { (w : WorldView) (power : Supply)
        → AreNewWorkers w power shared.now.turn shared.now.log dealt
        → IfOk result (λ backs. AreBack w power shared.now.turn shared.now.log backs.items) }
{
    let Ok(room) = Vec::with_capacity(alloc, dealt.owns.len() + 1) else {
        drop(dealt);
        return Err(AllocError);
    };
    Ok(work_all(rt, alloc, shared, gate, dealt, room))
}
