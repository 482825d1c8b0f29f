//! Worlds run by hand, event by event, with the power lost between them.
//!
//! A row of a table has a script, and then what is done, one after another: an event of a caller, as the machine does
//! it (`split_machine`), the loss of the power, which the World is told (`lose`), and what still comes behind it, that a
//! job finishes or is given up. Then the World is crashed, with the jobs that are out as far as they came; the device
//! that it leaves is mounted again with each of five choices, and judged.
//!
//! No clause of the machine speaks of a call that comes behind `lose`, since it makes none: it crashes at once. So what
//! comes of it is tested alone; but that each call may come is proved (`IsAtMoment`), as it has to be of any caller.

mod judging;
mod losses;
mod moments;
mod rows;
mod telling;
