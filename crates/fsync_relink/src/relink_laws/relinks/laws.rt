//! The changes of K-Split in the words of the World.
ghost use Rattle.fsync_relink.specs.Laws.{GivesRelinks, GivesRestagesFilled, GivesRestagesGivenUp, IsSaneInOrder, KeepsContent, KeepsContentFilled, KeepsContentGivenUp, StaysDeadGivenUp};

/// A relink of K-Split is one of the World: the state of the calls stays, and one free block is taken
/// at most.
pub fn relinks_are_those_of_the_world()
    ensures relinks { GivesRelinks }
    ensures sane { IsSaneInOrder }
{}

/// A relink of the next log entry of a file, done or cut off, keeps the content: each image has that of
/// the image before.
pub fn relinks_keep_the_content()
    ensures { KeepsContent }
{}

/// A staging file that gets blocks, or gives up its own, is a change of a staging file as the World
/// speaks of it; where nothing is live in it each image has the content of the image before.
pub fn staging_files_change_as_in_the_world()
    ensures filled { GivesRestagesFilled }
    ensures given_up { GivesRestagesGivenUp }
    ensures dead { StaysDeadGivenUp }
    ensures content_filled { KeepsContentFilled }
    ensures content_given_up { KeepsContentGivenUp }
{}
