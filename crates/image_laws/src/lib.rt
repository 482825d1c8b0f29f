//! Facts of a whole image.
//!
//! Lemmas alone, over the definitions of `layout_model` and `image_model`. The layer above may
//! rely on this: a checked image is the conjunction of its head, what its lines read as, what the volume
//! keeps and its log, and each is of use alone; an image breaks one rule first, at one place, and a checked
//! one none; the fresh image is checked and has the root alone; images that read alike through their
//! journals are checked alike; lines are torn as the words of their cells say, and a lent line only with its
//! words put back; and going up from a name is decided in a table of any kind.
//!
//! `specs/Laws.antt` has these laws, each as one statement; the functions here are where they are proved to
//! hold. `damages` has damaged images, each with the rule that it breaks first. Stands on `image_model` and
//! `volume_laws`.
#![tactic(auto)]

mod damages;

ghost use Rattle.image_laws.specs.Laws.{HasParts, IsOfParts, IsOfRules, BreaksNone, BreaksOne, BreaksAsVolume, FreshIsChecked, FreshHasRoot, IsCheckedAlike, HasOneContent, StandsWithoutLog, IsWholeOlder, IsWholeNewer, IsTornMixed, IsTornPartly, IsWholeLent, HoldsNonePast, DecidesTheWayUp, ReturnsForEver};

pub use damages::{
    deep_trees, wrong_entries, wrong_inodes, wrong_journals, wrong_lengths, wrong_names,
    wrong_owners, wrong_superblocks,
};

/// A checked image is the conjunction of its four parts.
pub fn a_checked_image_is_its_parts()
    ensures parts { HasParts }
    ensures whole { IsOfParts }
{}

/// The rules of a checked image as a list, and the first of them that an image breaks.
pub fn the_first_broken_rule_is_one()
    ensures list { IsOfRules }
    ensures checked { BreaksNone }
    ensures one { BreaksOne }
    ensures volume { BreaksAsVolume }
{}

/// The fresh image is checked, for every geometry in range.
pub fn the_fresh_image_is_checked()
    ensures checked { FreshIsChecked }
    ensures root { FreshHasRoot }
{}

/// What a checked image rests on.
pub fn images_of_one_view_are_alike()
    ensures checked { IsCheckedAlike }
    ensures content { HasOneContent }
    ensures log { StandsWithoutLog }
{}

/// Which images of a line are torn.
pub fn torn_lines_are_told()
    ensures older { IsWholeOlder }
    ensures newer { IsWholeNewer }
    ensures mixed { IsTornMixed }
    ensures partly { IsTornPartly }
    ensures lent { IsWholeLent }
{}

/// A claim past the lines is held by none.
pub fn claims_stand_in_lines()
    ensures { HoldsNonePast }
{}

/// Going up from a name, in a table of any kind.
pub fn the_way_up_is_decided()
    ensures decided { DecidesTheWayUp }
    ensures returning { ReturnsForEver }
{}
