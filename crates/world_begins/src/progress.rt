//! Laws of progress: what ends a round is settled, and rounds end.
//!
//! Laws alone, over what `world_parts` says that a call of a World answers and leaves. An `fsync` that answers ok is of an
//! open file, which is published (`a_file_that_is_synced_is_published`). Where space lacks for a call, it neither returns
//! nor becomes a job: so a Begin answers that the round is over exactly where room lacks, but where the power goes or
//! memory runs out. And the two numbers that it tells are settled by the World: first it asks for room beside the jobs that
//! are out, then for the holes of its file, and then for room in the staging (`the_end_of_a_round_is_settled`). The first
//! call behind a mount or a checkpoint never ends the round (`the_first_call_of_a_round_goes_on`), since it finds room
//! (`the_first_call_of_a_round_finds_room`), and in each round that comes to a checkpoint a call returned
//! (`rounds_get_further`): so rounds end.
//!
//! Files have at most the blocks that the room counts once all is published, so rounds end.
//!
//! Nothing stands on them: they show what the words of the layers below come to.

ghost use Rattle.world_begins.specs.Progress.{BeginsAtFirst, CheckpointsAtFirst, EndsWithOnePair, FirstCallsBegin, FirstCallsGoOn, FirstCallsHaveRoom, JobsHaveRoom, MountsAtFirst, ReturnsHaveRoom, RoundsGetFurther, StrictEndsLeaveAll, SyncsPublish, WaitsAlone};

use call_laws::kept_numbers_are_those_of_the_state;
use write_plan::{the_first_holes_find_their_blocks, the_first_write_finds_its_blocks};

/// Where an `fsync` answered ok, its handle stands for an open file, of which all that was claimed in this lap is
/// applied.
pub fn a_file_that_is_synced_is_published()
    ensures { SyncsPublish }
{}

/// What ends a round for want of space is settled by the World in which the call begins, and in strict mode nothing below
/// the calls differs then; and a call that waits there does not begin.
pub fn the_end_of_a_round_is_settled()
    ensures returns { ReturnsHaveRoom }
    ensures jobs { JobsHaveRoom }
    ensures numbers { EndsWithOnePair }
    ensures still { StrictEndsLeaveAll }
    ensures waits { WaitsAlone }
{}

/// Where an image was mounted, or behind a checkpoint, nothing is staged, and a round begins so. Its first call neither
/// waits nor ends the round: it returns or becomes a job, but where the power goes, memory runs out or its script has ended.
pub fn the_first_call_of_a_round_goes_on()
    ensures mounted { MountsAtFirst }
    ensures checkpoint { CheckpointsAtFirst }
    ensures begun { BeginsAtFirst }
    ensures first { FirstCallsGoOn }
    ensures begins { FirstCallsBegin }
{}

/// At first, space lacks for no call that may begin.
pub fn the_first_call_of_a_round_finds_room()
    ensures { FirstCallsHaveRoom }
{
    the_first_write_finds_its_blocks();
    the_first_holes_find_their_blocks();
    kept_numbers_are_those_of_the_state();
}

/// In each round that comes to a checkpoint, while the power was not lost, a call returned.
pub fn rounds_get_further()
    ensures { RoundsGetFurther }
{}
