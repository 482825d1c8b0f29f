//! A World whose power went while log lines and blocks of jobs are out.
//!
//! What is lent is outside the device, so that the promise speaks of each image with lines and blocks put back
//! (`IsLostWith`). The layer above may rely on this: a World that stood together is so once the power went in a
//! call or was found off; and it stays so while jobs finish or are given up, whose blocks come home. What a crash
//! leaves of it `crashes` says.
//!
//! Lemmas alone.

ghost use Rattle.write_end.specs.LosingLaws.{
  ComeHomeMore,
  ComeHomeNone,
  ComesHomeAlone,
  FinishesLost,
  GivesUpLost,
  HasBlocksOut,
  HasLoansApart,
  IsFoundAtCall,
  IsFoundLost,
  IsLostAlike,
  LeavesBlocks,
  LosesCall,
  StandsApart,
};
ghost use Rattle.write_end.specs.Stops.{KeepsGatheredOut, KeepsPublishedOut, LeavesStopped};

/// The power goes in a call, or is found off.
pub fn the_power_goes()
    ensures call { LosesCall }
    ensures found { IsFoundLost }
    ensures at_call { IsFoundAtCall }
    ensures alike { IsLostAlike }
{}

/// The blocks of jobs that are out, and loans of them that come home.
pub fn blocks_are_out_or_at_home()
    ensures out { HasBlocksOut }
    ensures left { LeavesBlocks }
    ensures lost_apart { HasLoansApart }
    ensures stand_apart { StandsApart }
    ensures none { ComeHomeNone }
    ensures more { ComeHomeMore }
{}

/// Jobs end after the loss.
pub fn jobs_end_after_a_loss()
    ensures finished { FinishesLost }
    ensures given_up { GivesUpLost }
    ensures alone { ComesHomeAlone }
{}

/// Files are published, or stopped being so.
pub fn publishing_leaves_what_is_out()
    ensures stopped { LeavesStopped }
    ensures published { KeepsPublishedOut }
    ensures gathered { KeepsGatheredOut }
{}

pub use crate::ends::{finish_write, give_up_write, settle_blocks};
pub use oplog_entry::Full;
