//! The order of a state's entries.
//!
//! Definitions and lemmas, no code. The entries of a state stand by their directories' numbers, and then
//! by the bytes of their names, no two of one directory and one name (`AreOrdered`). The layer above may
//! rely on this: each call keeps them so; so the names of a directory, as `list` tells them, are in byte
//! order.

ghost use Rattle.posix_laws.specs.OrdersLaws.{KeepsOrder, ListsSorted, StartsInOrder};

/// A tree's entries begin in order, and each call leaves them so.
pub fn entries_stay_in_order()
    ensures start { StartsInOrder }
    ensures call { KeepsOrder }
{}

/// Sorted names are those that `list` tells.
pub fn names_are_told_sorted()
    ensures { ListsSorted }
{}
