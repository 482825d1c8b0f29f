//! Facts of replay: the live entries of a log in their order, and what stays right while they are carried out.
//!
//! Laws alone, no code. The layer above may rely on this: in their order each live entry comes before the
//! later ones of its file (`ComeFirst`); where one is carried out, or only words beside the log differ, the
//! log keeps its rules; and an image of a change that wrote data blocks has a right head.

ghost use Rattle.log_laws.specs.ReplaysLaws.{ComeFirstInOrder, HoldsTheSame, KeepsHead, KeepsLogBySameLines, KeepsLogCarriedOut};

/// The live entries in their order: each comes before the later ones of its file.
pub fn live_entries_come_in_order()
    ensures { ComeFirstInOrder }
{}

/// The log keeps its rules while its entries are carried out.
pub fn the_log_keeps_its_rules()
    ensures same { KeepsLogBySameLines }
    ensures held { HoldsTheSame }
    ensures carried { KeepsLogCarriedOut }
{}

/// An image of a change that wrote data blocks has a right head.
pub fn the_head_stays_right()
    ensures { KeepsHead }
{}
