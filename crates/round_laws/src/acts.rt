//! Each call of a World within a round is one act of its caller, or none.
//!
//! Whatever `begin`, `finish`, `give_up` and `lose` answer, but that memory runs out, the World is left as `IsAct` says: at most one
//! item and one pair more, both of the caller; its own job began, ended or stayed; the jobs of others stay, in their order; and so
//! does all that a caller was shown. One law for each answer, for those who hold a World in turn.

ghost use Rattle.round_laws.specs.ActsLaws.{FinishActs, GiveUpActs, JobActs, LoseActs, LostCallActs, LostEndActs, LostFinishActs, NothingActs, ReturnsActs, RoundEndActs};

/// Each answer of `begin`, and each end of a job, is an act of its caller.
pub fn a_call_is_an_act()
    ensures returns { ReturnsActs }
    ensures job { JobActs }
    ensures round_end { RoundEndActs }
    ensures lost_call { LostCallActs }
    ensures lost_end { LostEndActs }
    ensures nothing { NothingActs }
    ensures finish { FinishActs }
    ensures lost_finish { LostFinishActs }
    ensures give_up { GiveUpActs }
    ensures lose { LoseActs }
{}
