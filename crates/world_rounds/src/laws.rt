//! The laws that the bodies here rest on, so that a call of one is seen to be no deed.

pub(crate) use round_laws::{
    a_checkpoint_ends_a_round, an_unmount_ends_a_run, log_lines_go_out,
    the_lines_of_a_round_come_home, the_lines_of_a_round_may_go_out,
};
pub(crate) use world_parts::finished_writes_end_with_their_files;
