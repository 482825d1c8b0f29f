//! How commit and recovery end.

/// How a commit ended.
#[derive(Clone, Copy, Debug, PartialEq, Eq)]
pub enum Commit {
    /// The batch's lines are durable, and the batch is empty.
    Done,
    /// The power went. Every image recovers to all of the old lines or all of the new ones.
    PowerLost,
}

/// How a recovery ended.
#[derive(Clone, Copy, Debug, PartialEq, Eq)]
pub enum Recovered {
    /// Each committed record stands in its line, and the journal is empty.
    Done,
    /// The power went. Every image recovers to the same lines as the device before.
    PowerLost,
    /// The journal cannot be recovered, and nothing was written.
    Bad {
        /// The first committed record that has no journaled target, or 128 where the commit word is
        /// above 128.
        index: u32,
    },
}
