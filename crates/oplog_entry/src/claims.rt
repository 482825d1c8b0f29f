//! What became of a claimed line of a log, and what an append finds where no line is left.

/// What became of the line of a claim.
#[derive(Clone, Copy, Debug, PartialEq, Eq)]
pub enum Mark {
    /// It holds its entry, which is durable.
    Written,
    /// The power was lost before the append came to its end.
    Lost,
}

/// What an append found where the log was full.
#[derive(Clone, Copy, Debug, PartialEq, Eq)]
pub struct Full {
    /// The number that it claimed, at least the capacity.
    pub claimed: u64,
    /// How many lines the log has.
    pub capacity: u64,
}
