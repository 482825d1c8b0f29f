//! A round of the World: the log lines go out when it begins, and come home at its end.
//!
//! Laws alone, no code. The layer above may rely on this: where a lap of the log began and its
//! lines are taken out, K-Split and the World stand together with the lines out (`StandsOut`); and
//! where no job is out and the lines are put back, with the claims in them, they stand together
//! with the lines at home (`StandsHome`).

ghost use Rattle.file_publish.specs.RoundLinesLaws.{StandsHome, StandsOut};

/// The log lines go out: they stand together with the lines out.
pub fn log_lines_go_out()
    ensures { StandsOut }
{}

/// The log lines come home: they stand together with the lines at home.
pub fn log_lines_come_home()
    ensures { StandsHome }
{}

pub use crate::laps::{gather, what_stands_may_be_published};
