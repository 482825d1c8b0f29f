//! What seats know of a turn, and what one is opened with. No value of a `Standing` is made.
use std::collections::LinkedList;
use std::snapshot::Snapshot;

/// What a seat knows: the passes that it carries, each with its number and its view, and the value with which it is inside.
pub struct Standing<T, V> {
    pub carried: LinkedList<(u64, V)>,
    pub inside: Option<T>,
}

/// What a turn is opened with.
#[derive(Drop)]
pub struct Opening<T> {
    pub passes: u32,
    pub value: Snapshot<T>,
}
