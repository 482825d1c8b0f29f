//! The laws that the bodies here rest on, so that a call of one is seen to be no deed.

pub(crate) use crate::stages::{
    kept_numbers_are_those_of_the_state, numbers_are_those_of_the_state,
};
pub(crate) use live_step_laws::{a_job_begins_in_flight, a_run_is_reserved_in_flight};
pub(crate) use write_plan::{
    entries_are_the_next_ones, staged_blocks_are_those_of_the_part,
    the_first_holes_find_their_blocks, the_first_write_finds_its_blocks, words_spell_the_file,
};
