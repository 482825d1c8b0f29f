//! Whether a caller's next call may begin.
ghost use Rattle.std.specs.Prelude.{◌≡◌, IfNone, IfSome, None, Some, true, false};
ghost use Rattle.world_view_laws.specs.crash_spec.Busy.{is_busy};
ghost use Rattle.world_view_laws.specs.Begins.{IsKeptBy};
ghost use Rattle.world_view_laws.specs.Views.{files_out, next_of, state_of, HasNone};
ghost use Rattle.world_parts.specs.Answers.{IsReady};
ghost use Rattle.world_parts.specs.Seen.{seen, IsKept};

use crate::outcomes::Ready;
use crate::parts::Parts;
use posix_types::{Call, Who};
use world_view_laws::{calls_made, keeper, next_in, place_of};

/// The file that the call waits for, by its inode, and the caller of the job that is out of it, while the power is
/// on. With no job out, as with the log's lines at home and in POSIX mode, it waits for none.
pub fn busy_on(p: &Parts, who: Who, call: &Call) -> Option<(u32, Who)>
    requires kept { IsKept p.now }
    requires awake { p.now.lost ≡ false }
    ensures none { IfNone result (is_busy (state_of (seen p.now)) (files_out (seen p.now)) (who, call.now) ≡ false) }
    ensures some { IfSome result (λ found. IsKeptBy (seen p.now) who call.now found.0 found.1) }
{
    if p.pending.is_empty() {
        return None;
    }
    keeper(&p.k, &p.tables, &p.pending, who, call)
}

// Whether a caller can begin its next call, this one, while the round goes on and it has no job out.
fn ready_for(p: &Parts, who: Who, call: &Call) -> Ready
    requires kept { IsKept p.now }
    requires none { HasNone (seen p.now) who }
    requires next { next_of (seen p.now) who ≡ Some call.now }
    requires going { p.now.over ≡ None }
    ensures { IsReady (seen p.now) who result }
{
    if p.lost {
        return Ready::Yes;
    }
    match busy_on(p, who, call) {
        Some((ino, holder)) => Ready::Busy { ino, holder },
        None => Ready::Yes,
    }
}

/// Whether a caller can begin its next call.
pub fn ready_of(p: &Parts, who: Who) -> Ready
    requires kept { IsKept p.now }
    ensures { IsReady (seen p.now) who result }
{
    match place_of(&p.pending, who) {
        Some(_) => Ready::Out,
        None => match next_in(&p.scripts, who, calls_made(&p.counters, who)) {
            None => Ready::ScriptEnd,
            Some(call) => match p.over {
                Some(_) => Ready::RoundOver,
                None => ready_for(p, who, call),
            },
        },
    }
}
