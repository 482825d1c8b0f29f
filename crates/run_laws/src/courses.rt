//! How the machine over events goes on beside a World.
//!
//! Whatever machine stands beside a moment between two events, an event of the World is one of the machine, and the
//! machine that it leads to stands beside the next moment. So what a run leaves is scheduled.

ghost use Rattle.run_laws.specs.CourseLaws.{
  AllReturn,
  AreScheduled,
  CallsAreOut,
  ChecksBeside,
  ClaimsBeside,
  FillsBeside,
  FindsFullBeside,
  FinishesBeside,
  IdleBegins,
  IdleCanRun,
  IsNobodys,
  JobCanRun,
  LacksSpaceBeside,
  LeadsReaches,
  LogsBeside,
  LosesBeside,
  NobodyRuns,
  OpensBeside,
  OthersCannot,
  OverIsNoEnd,
  PersistsBeside,
  ReturnsBeside,
  RunStarts,
  SetUpGoesOn,
  SomebodyRuns,
  StoresBeside,
};

/// A caller begins its next call, and its job goes on to its end.
pub fn a_caller_goes_beside()
    ensures returns { ReturnsBeside }
    ensures logs { LogsBeside }
    ensures fills { FillsBeside }
    ensures claims { ClaimsBeside }
    ensures full { FindsFullBeside }
    ensures stores { StoresBeside }
    ensures persists { PersistsBeside }
    ensures finishes { FinishesBeside }
{}

/// A run starts, a round begins and ends; and how the machine came where it is.
pub fn a_round_goes_beside()
    ensures starts { RunStarts }
    ensures opens { OpensBeside }
    ensures checks { ChecksBeside }
    ensures lacks { LacksSpaceBeside }
    ensures reaches { LeadsReaches }
    ensures scheduled { AreScheduled }
    ensures calls { CallsAreOut }
    ensures loses { LosesBeside }
{}

/// Who can run, and what is left where nobody can.
pub fn some_callers_can_run()
    ensures job { JobCanRun }
    ensures idle { IdleCanRun }
    ensures begins { IdleBegins }
    ensures others { OthersCannot }
    ensures set_up { SetUpGoesOn }
    ensures all { AllReturn }
    ensures nobody { NobodyRuns }
    ensures somebody { SomebodyRuns }
    ensures over { OverIsNoEnd }
    ensures checks { IsNobodys }
{}
