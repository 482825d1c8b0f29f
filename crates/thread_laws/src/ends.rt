//! What a closed round gives the World's end.
//!
//! All workers came back, and turn and log are closed. While the power is on no job is out, and the lines hold the claims: so a
//! checkpoint may come where a caller has a call left, and else the World may be unmounted. Once the power went a crash may come,
//! with the jobs that came back.

ghost use Rattle.thread_laws.specs.EndsLaws.{ClosedIsQuiet, ClosedMayCheckpoint, ClosedMayCrash, ClosedMayUnmount, LostIsBounded, LostMayCrash, StillIsReturned, WorkedIsReturned};

/// What is closed is what the World asks for.
pub fn a_round_ends_as_it_may()
    ensures quiet { ClosedIsQuiet }
    ensures checkpoint { ClosedMayCheckpoint }
    ensures unmount { ClosedMayUnmount }
    ensures crash { ClosedMayCrash }
    ensures lost { LostMayCrash }
    ensures bounded { LostIsBounded }
    ensures worked { WorkedIsReturned }
    ensures still { StillIsReturned }
{}
