//! The laws of a run, one an event.
//!
//! Each leads from a moment between two events to such a moment again, or to a power loss; and says what the call
//! that makes the event asks for.

ghost use Rattle.run_laws.specs.EventsLaws.{
  ActedBetween,
  AffordsLost,
  AffordsWhole,
  BeginLoses,
  BeginsRound,
  CallReturns,
  CheckLoses,
  ClaimedIsFree,
  CrashesBetween,
  EntryPersisted,
  EntryStored,
  FilledIsHere,
  FillLoses,
  FinishLoses,
  JobBegins,
  JobClaims,
  JobFills,
  JobFinishes,
  JobGivenUp,
  MayCheck,
  MayEnd,
  PaidIsPaidOff,
  PersistedIsHere,
  PersistLoses,
  RoundChecked,
  RoundEnds,
  StoredIsThere,
  StoreLoses,
};

/// A call begins: it returns, becomes a job, ends the round for want of space, or loses its power.
pub fn a_call_begins()
    ensures returned { CallReturns }
    ensures job { JobBegins }
    ensures over { RoundEnds }
    ensures lost { BeginLoses }
{}

/// A job is filled, claims a slot, has its entry stored and persisted there, and finishes; or no slot is left, and it
/// is given up.
pub fn a_job_goes_on()
    ensures filled { JobFills }
    ensures fill_lost { FillLoses }
    ensures claimed { JobClaims }
    ensures here { FilledIsHere }
    ensures given_up { JobGivenUp }
    ensures free { ClaimedIsFree }
    ensures stored { EntryStored }
    ensures store_lost { StoreLoses }
    ensures there { StoredIsThere }
    ensures persisted { EntryPersisted }
    ensures persist_lost { PersistLoses }
    ensures ready { PersistedIsHere }
    ensures finished { JobFinishes }
    ensures finish_lost { FinishLoses }
{}

/// A round begins, and ends by a Checkpoint; and between any two events a crash may come.
pub fn a_round_goes_on()
    ensures begins { BeginsRound }
    ensures may { MayCheck }
    ensures done { RoundChecked }
    ensures lost { CheckLoses }
    ensures crashes { CrashesBetween }
{}

/// A run ends where all calls returned; its steps are afforded; and each call that is out and acted took a step.
pub fn a_run_ends()
    ensures may { MayEnd }
    ensures lost { AffordsLost }
    ensures cut { PaidIsPaidOff }
    ensures acted { ActedBetween }
    ensures whole { AffordsWhole }
{}
