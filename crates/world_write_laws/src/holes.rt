//! Holes of a file get blocks of zeros.
//!
//! Lemmas, and the small definitions that they speak of. The layer above may rely on this, with any jobs in flight on other
//! files: a file whose holes get blocks that read zero stands for the same state (`KeepsHolesFilled`).

ghost use Rattle.world_write_laws.specs.HolesLaws.{KeepsHolesFilled};

/// Holes are filled, in the same state.
pub fn holes_get_blocks()
    ensures { KeepsHolesFilled }
{}
