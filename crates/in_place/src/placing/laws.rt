//! The laws that the bodies here rest on, so that a call of one is seen to be no deed.

pub(crate) use live_step_laws::{holes_are_filled_as_asked, holes_are_filled_in_flight};
