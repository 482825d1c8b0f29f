//! What a run calls outside the turn.
use oplog_tail::Receipt;

/// What the worker of a thread calls while it has neither the turn nor a line of the log: before each append, and behind
/// each that was Done. The set-up's worker calls nothing.
pub trait Gate {
    /// Thread `t` is about to append the entry of its job.
    fn before_claim(&self, t: u32);

    /// The append of thread `t` was Done.
    fn after_append(&self, t: u32, receipt: &Receipt);
}

/// Does nothing.
pub struct OpenGate;

impl Gate for OpenGate {
    fn before_claim(&self, _t: u32) {}

    fn after_append(&self, _t: u32, _receipt: &Receipt) {}
}
