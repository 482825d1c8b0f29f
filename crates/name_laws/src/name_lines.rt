//! Facts of tables of names: what they say after one line was taken, freed or moved.
//!
//! Lemmas alone, over the definitions of `layout_model` and `image_model`. The layer above may rely on
//! this: the names of a sane volume are trees, so that a table of names takes them; a name that takes
//! a line is found there, one that is freed is found no more, and all others are found as before; the
//! child has a name more, or one less; going up is the same but from what the line names; and the
//! names stay trees where a line is taken for a new node, freed of one without entries, or moved to a
//! directory that is not below it.
//!
//! `specs/Laws.antt` has these laws, each as one statement; the functions here are where they are proved to
//! hold.

ghost use Rattle.name_laws.specs.NameLinesLaws.{AreTrees, HaveNoWayBack, FindsTaken, NamesTaken, CountsTaken, LiesAbove, StaysForestTaken, FindsNoneFreed, CountsFreed, HasNoneAbove, StaysForestFreed, FindsOthers, LeadsStill, LeadsToNew, LeadsElsewhere, LeadsNoMore, GoesUpAsBefore, GoesUpThrough, StaysForestMoved, CountsFreeLines};

/// The names of a sane volume are trees, and have no way back.
pub fn sane_names_are_trees()
    ensures trees { AreTrees }
    ensures acyclic { HaveNoWayBack }
{}

/// What a table says after a free line was taken.
pub fn lines_are_taken()
    ensures found { FindsTaken }
    ensures names { NamesTaken }
    ensures count { CountsTaken }
    ensures free { CountsFreeLines }
    ensures above { LiesAbove }
    ensures trees { StaysForestTaken }
{}

/// What a table says after a line was freed.
pub fn lines_are_freed()
    ensures gone { FindsNoneFreed }
    ensures count { CountsFreed }
    ensures above { HasNoneAbove }
    ensures trees { StaysForestFreed }
{}

/// What stays, and what is above a directory that is moved.
pub fn other_lines_stay()
    ensures found { FindsOthers }
    ensures above { GoesUpAsBefore }
    ensures through { GoesUpThrough }
    ensures trees { StaysForestMoved }
{}

/// Where paths lead after a line was taken or freed.
pub fn paths_lead_on()
    ensures still { LeadsStill }
    ensures new { LeadsToNew }
    ensures elsewhere { LeadsElsewhere }
    ensures gone { LeadsNoMore }
{}
