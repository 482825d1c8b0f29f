//! How the names of a path are spelled: the one definition that scripts and K-Split share.
//!
//! A name is one or more bytes from 33 to 126, none of them a slash, and neither `.` nor `..`
//! (`is_spelled`); a path is spelled where each of its names is (`AreSpelled`). It sets no limit on the
//! length: a name that no name line holds, or a path of too many names, is refused by the call that has
//! it (`ENAMETOOLONG`). The grammar of scripts reads no other names, so that each call of a script may
//! be handed to K-Split.
//!
//! Definitions alone, with their rows.

ghost use Rattle.layout_model.specs.Laws.{SpellsNames};

/// How names are spelled, in rows.
pub fn names_are_spelled()
    ensures { SpellsNames }
{}
