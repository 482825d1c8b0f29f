//! Sums over the views of those who share something, and numbers that are given out once.
//!
//! Lemmas alone, for rules that speak of what all threads know together. `Sums` has sums over a list, by
//! places: one view is changed, a new one comes, two of them are within the whole, all but one are nothing.
//! `Numbers` says that a number is given once (`once_below`), and how often one stands in a list
//! (`count_with`). The log that threads fill and the turn that they take stand on them.
