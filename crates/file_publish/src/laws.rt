//! The laws that the bodies here rest on, so that a call of one is seen to be no deed.

pub(crate) use crate::relinks::{
    a_file_is_published, the_next_lap_begins, what_stands_may_be_published,
};
