//! A judge: whether a mode permits what a power loss left.
//!
//! `judge` is proved to answer true exactly where the relation of the mode holds, for every history, all
//! unfinished calls and every tree. It is a tool for tests: plain, and quick enough for a history of a
//! hundred calls over files of some thousand bytes. It never tries the states byte by byte: it makes one
//! state that is nearest to the tree, in which each byte is as the tree wants it, if it may be, and the
//! tree may be left exactly where it is that of this state (`is_left` of `judge_bytes` for POSIX mode,
//! `parts` for sync mode, where the states that differ in bytes alone go together under every call).

mod parts;
mod posix;
mod strict;

ghost use Rattle.std.specs.Prelude.{◌↔◌, IfOk, IsTrue};
ghost use Rattle.crash_judge.specs.Judged.{IsPermitted};

use crate::judge_bytes::run;
use crate::judging::parts::is_sync;
use crate::judging::posix::is_posix;
use crate::judging::strict::is_strict;
pub use posix_spec::State;
pub use posix_types::{Call, Item, Mode, Shape, Tree, Who};
use std::alloc::{AllocError, Global};

/// Whether the mode permits this tree after a power loss: of a file system of this shape that began
/// with a tree, after a history and with these unfinished calls, in the order in which they began. The
/// time doubles with each unfinished call.
pub fn judge(
    alloc: Global,
    mode: Mode,
    shape: Shape,
    start: &Tree,
    history: &[Item],
    unfinished: &[(Who, Call)],
    after: &Tree,
) -> Result<bool, AllocError>
    ensures exact { IfOk result (λ is. IsTrue is ↔
        IsPermitted mode shape start.now history.now unfinished.now after.now) }
{
    let first = State::open(alloc, start, shape, mode)?;
    match mode {
        Mode::Strict => {
            let done = run(first, history)?;
            is_strict(&done, unfinished, after)
        }
        Mode::Sync => is_sync(alloc, &first, history, unfinished, after),
        Mode::Posix => is_posix(alloc, &first, history, unfinished, after),
    }
}

pub use posix_spec::{Put, default_shape, root_alone};
pub use posix_types::{Data, Flags, Handle, Name, Path, Reply, TreeEntry, TreeNode, Whence};
