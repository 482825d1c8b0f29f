//! A write lands, and its front is written.
//!
//! Lemmas alone. The layer above may rely on this: once a write landed, in strict mode its call has acted
//! (`LandedIsFinished`); in sync mode its bytes before the first block of its entry may be written in place
//! (`LandedMayPlace`), and with them its call has acted (`FrontFinishes`); where the power goes on the way, its
//! claim counts, its blocks are at home, and its call stays unfinished (`FinishesCut`).

ghost use Rattle.write_end.specs.Landing.{FinishesCut, FrontFinishes, LandedIsFinished, LandedMayPlace};

/// A landed write and its front.
pub fn a_landed_write_has_its_front()
    ensures may { LandedMayPlace }
    ensures finishes { FrontFinishes }
    ensures finished { LandedIsFinished }
    ensures cut { FinishesCut }
{}
