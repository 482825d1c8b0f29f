//! The laws that the bodies here rest on, so that a call of one is seen to be no deed.

pub(crate) use world_rounds::{a_world_begins, an_unmount_ends_a_run};
