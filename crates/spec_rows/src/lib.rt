//! Tables of file calls with the replies that are wanted, run by the meaning of the calls, and judged as power losses.
//!
//! The language is that of `test_kit`. A row begins on the default image in strict mode, or by its options `shape D N L`
//! on one of D data blocks, N nodes and L name lines, and `mode MODE` in another mode. `begun = CALL` is a call that did not
//! return, and behind it `left = TREE` is a tree that the mode permits after a power loss, `never = TREE` one that it forbids.
//!
//! What is tested is what no clause says: that the definitions, which `State::apply` and `judge` meet exactly, say what
//! Linux answers and what was worked by hand; and that each call succeeds where there is memory. Texts and limits of
//! scripts stand beside them (`texts`).
#![tactic(auto)]

#[cfg(test)]
mod calls;
#[cfg(test)]
mod cases;
#[cfg(test)]
mod linux;
#[cfg(test)]
mod losses;
#[cfg(test)]
mod texts;
