//! Orders of threads.

/// In which order threads are picked, of those that can run.
#[derive(Drop)]
pub enum Order {
    /// By these numbers of threads, one after another; one that cannot run is passed over. Behind the list it goes
    /// round.
    List(Vec<u64>),
    /// By draws of SplitMix64 from this seed.
    Seed(u64),
    /// The next higher thread behind the one that was picked last, or else the lowest.
    Round,
}
