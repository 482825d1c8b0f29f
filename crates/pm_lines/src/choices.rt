//! Which candidate of each word a power loss leaves.

/// Which candidate of each word a power loss leaves.
#[derive(Clone, Copy, Debug, PartialEq, Eq)]
pub enum Choice {
    /// The oldest candidate of each word.
    Oldest,
    /// The newest candidate of each word.
    Newest,
    /// The newest candidate of each even-numbered word, the oldest of each odd one.
    Even,
    /// The newest candidate of each odd-numbered word, the oldest of each even one.
    Odd,
    /// One draw of SplitMix64 from this seed for each word with two candidates, in rising order: the
    /// newest where the draw is odd, else the oldest.
    Seed(u64),
}
