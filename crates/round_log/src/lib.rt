//! The log of a round: its lines, by rising slot, and how many were claimed.
//!
//! An append goes in three steps, each of which may be the last before a power loss: `claim` takes the next
//! slot, `store` stores the words of the entry into its line, and `persist` flushes and fences them. The layer
//! above may rely on this: slots are claimed in order, each once, until no line is left; only the line of the
//! slot changes; what was stored and persisted with power left holds the entry, whole and durable; and where the
//! power went the line holds it, or each of its words is as before or has the entry's word behind it (`Holds`).
//!
//! It is for one thread at a time. Stands on `oplog_entry`, which spells entries and says what an append
//! leaves in its line.
#![tactic(auto)]

mod entries;
mod laws;
mod logs;

pub use laws::a_round_holds_its_claims;
pub use logs::RoundLog;
