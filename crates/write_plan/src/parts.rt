//! The staged part of a write.
//!
//! One lemma: the blocks that the plan of a write stages are those that its staged part reaches, in any mode
//! (`StagesThePart`). So the layer above stages the part as it stages a write in strict mode, which is whole.

ghost use Rattle.write_plan.specs.Parts.{StagesThePart};

/// The staged blocks of a write are those of its staged part.
pub fn staged_blocks_are_those_of_the_part()
    ensures { StagesThePart }
{}
