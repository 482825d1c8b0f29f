//! Facts of the meaning of the file calls.
//!
//! Lemmas alone, over the definitions of `posix_spec`: where no row of a list fits each is none, and what
//! that says of an accepted write (`RowLaws`); the entries of a state stay distinct under every call
//! (`DistinctLaws`), and what its files hold leaves the reserve (`FitsLaws`); which calls are unfinished
//! before any has begun, after one more began and after one of them returned (`UnfinishedLaws`). Crash
//! relations and the facts of a world cite them.

ghost use Rattle.posix_laws.specs.FactsLaws.{FitsAlways, IsDistinctAlways};

/// What files hold leaves the reserve, and entries stay distinct, under every call of every instance.
pub fn states_stay_sound()
    ensures fits { FitsAlways }
    ensures distinct { IsDistinctAlways }
{}
