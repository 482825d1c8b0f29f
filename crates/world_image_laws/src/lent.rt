//! The promise while log lines and data blocks are out.
//!
//! A write in flight has its data blocks lent and its log line out, so that the device alone says nothing of
//! their words. What is promised is said of the images of the device with each of them put back as it was when
//! the power went (`IsPutBack`): claimed lines whole, those of filled jobs as far as they came, and an image
//! that is honest. The layer above may rely on this: each such image is checked, has a tree, and only trees that
//! the mode permits with the calls of just those jobs unfinished whose entry may stand in the log (`IsKeptBack`), in
//! any of which the writes in flight are found or not; one more call that lost its power before it changed anything
//! may be the last of them, and so may a call of another caller whose change was on the way; and one of which a part is found may
//! stand at any place among them (`LeadsFromPart`).
//!
//! Lemmas alone.

ghost use Rattle.world_image_laws.specs.LentLaws.{KeepsPromiseAtBegin, KeepsPromiseBeside, KeepsPromiseInFlight, LeadsAfter, LeadsBefore};
ghost use Rattle.world_image_laws.specs.PlaceLaws.{KeepsPartAmong, LeadsFromPart};
ghost use Rattle.world_step_laws.specs.Parts.{GoOnAtFirst, GoOnInPart};

/// The promise while writes are in flight.
pub fn writes_in_flight_keep_the_promise()
    ensures jobs { KeepsPromiseInFlight }
    ensures begun { KeepsPromiseAtBegin }
    ensures beside { KeepsPromiseBeside }
    ensures before { LeadsBefore }
    ensures after { LeadsAfter }
{}

/// A part of a write is found.
pub fn a_part_of_a_write_is_found()
    ensures among { LeadsFromPart }
    ensures kept { KeepsPartAmong }
    ensures on { GoOnInPart }
    ensures first { GoOnAtFirst }
{}
