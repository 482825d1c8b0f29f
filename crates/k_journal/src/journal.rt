//! The calls of the journal.
pub use crate::commits::commit;
pub use crate::recoveries::recover;
