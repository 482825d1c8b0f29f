//! The laws that the bodies here rest on, so that a call of one is seen to be no deed.

pub(crate) use live_model::what_files_hold_is_the_sum;
