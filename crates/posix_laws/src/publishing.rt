//! Open files and published lengths of the states that calls lead to; and the state that POSIX mode would commit.
//!
//! Definitions and lemmas, no code. Between calls what is open is a file, no more is published than there is, and of a
//! file that nobody has open all is published (`IsPublishing`). The layer above may rely on this: each call keeps it,
//! where paths lead to nodes that are there; what is gone stays gone, and a published byte stays published unless its
//! file goes or the call shortens it. `cut_of` is the state with each file cut to its published length: a call of names
//! does to it what it does to the state.

ghost use Rattle.posix_laws.specs.Cuts.{CutCommutes, CutSweeps};
ghost use Rattle.posix_laws.specs.Publishes.{BeginsPublishing, KeepsGone, KeepsPublished, KeepsPublishing};

/// It begins so, each call keeps it, what is gone stays gone, and what is published stays so.
pub fn states_publish()
    ensures begins { BeginsPublishing }
    ensures keeps { KeepsPublishing }
    ensures gone { KeepsGone }
    ensures published { KeepsPublished }
{}

/// Calls of names do to the cut state what they do to the state, and so does the sweep of a file.
pub fn names_commute_with_the_cut()
    ensures call { CutCommutes }
    ensures sweep { CutSweeps }
{}
