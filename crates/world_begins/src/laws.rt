//! The laws that the bodies here rest on, so that a call of one is seen to be no deed.

pub(crate) use call_laws::{jobs_need_what_their_calls_do, kept_numbers_are_those_of_the_state};
pub(crate) use world_parts::what_stands_may_be_published;
