//! What `publish` asks for, tested before it is called.
ghost use Rattle.std.specs.Prelude.{◌+◌, ◌≤◌, ◌<◌, ◌^◌, ◌↔◌, [], ◌∷◌, IsTrue};
ghost use Rattle.k_map_tests.specs.image_model.Volume.{inode};
ghost use Rattle.fsync_relink.specs.Publishes.{IsStagedRun, MayPublish, ShareNone};
ghost use Rattle.k_map_tests.specs.Calls.{IsFresh};

use crate::publishing::Three;
use file_overlay::Run;
use k_map_tests::{blocks_are_there, has_free, is_file, is_staging};
use k_split::KSplit;

// Whether a run has its blocks in a staging file.
fn is_staged(k: &KSplit, run: &Run) -> bool
    requires { IsFresh k.now }
    ensures { IsTrue result → IsStagedRun k.now run.now }
{
    if run.staging_block > 4096 || run.file_block > 4096 || run.count > 4096 {
        return false;
    }
    if run.count == 0 || run.file_block + run.count > 4096 || !is_staging(k, run.staging) {
        return false;
    }
    blocks_are_there(k, run.staging, run.staging_block, run.count)
}

// Whether the blocks of a run end before those of another one begin.
fn ends_before(run: &Run, other: &Run) -> bool
    ensures { IsTrue result ↔ (run.now.staging_block + run.now.count ≤ other.now.staging_block) }
{
    u64::from(run.staging_block) + u64::from(run.count) <= u64::from(other.staging_block)
}

// Whether two runs share no block of a staging file.
fn share_none(run: &Run, other: &Run) -> bool
    ensures { IsTrue result → ShareNone run.now other.now }
{
    if run.staging != other.staging {
        return true;
    }
    if ends_before(run, other) {
        return true;
    }
    ends_before(other, run)
}

// Whether the orders rise above what the file has applied.
fn are_rising(k: &KSplit, three: &Three) -> bool
    ensures { IsTrue result → ((inode k.now.volume three.now.ino).applied < three.now.first.order)
        × (three.now.first.order < three.now.second.order)
        × (three.now.second.order < three.now.third.order)
        × (three.now.third.order ≤ 2 ^ 63) }
{
    match k.node(three.ino) {
        Some(node) => {
            node.applied < three.first.order
                && three.first.order < three.second.order
                && three.second.order < three.third.order
                && three.third.order <= 1 << 63
        }
        None => false,
    }
}

// Whether three runs may be published.
pub(crate) fn may_publish(k: &KSplit, three: &Three) -> bool
    requires { IsFresh k.now }
    ensures { IsTrue result → MayPublish three.now.ino three.now.size
        (three.now.first ∷ three.now.second ∷ three.now.third ∷ []) k.now }
{
    if !is_file(k, three.ino) || three.size > 16_777_216 || !has_free(k, 3, 3) {
        return false;
    }
    if !is_staged(k, &three.first) || !is_staged(k, &three.second) || !is_staged(k, &three.third) {
        return false;
    }
    if !share_none(&three.first, &three.second)
        || !share_none(&three.first, &three.third)
        || !share_none(&three.second, &three.third)
    {
        return false;
    }
    are_rising(k, three)
}
