//! The laws that the bodies here rest on, so that a call of one is seen to be no deed.

pub(crate) use crate::tails::zeros::{
    blocks_are_zeroed_in_flight, the_end_of_a_file_is_cleaned_in_flight,
};
