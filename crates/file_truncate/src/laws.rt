//! The laws that the bodies here rest on, so that a call of one is seen to be no deed.

pub(crate) use in_place::{
    kept_numbers_are_those_of_the_state, the_end_of_a_file_is_cleaned_in_flight,
};
