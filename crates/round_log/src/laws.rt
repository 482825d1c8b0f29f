//! What a log holds of the claims that were made of it.
ghost use Rattle.round_log.specs.Held.{ChangesTaken, ClaimsSlot, HoldsNone, LinesHoldClaims, TakesSlot};

/// A log that was opened holds no claim; a slot that is claimed was free; a taken line may change; one that
/// holds its entry is one claim more; and where no entry is on its way the lines hold the claims.
pub fn a_round_holds_its_claims()
    ensures none { HoldsNone }
    ensures takes { TakesSlot }
    ensures changes { ChangesTaken }
    ensures claims { ClaimsSlot }
    ensures lines { LinesHoldClaims }
{}
