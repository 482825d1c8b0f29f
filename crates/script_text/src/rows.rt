//! The grammar, in rows.
ghost use Rattle.script_text.specs.Rows.{CallRows, DataRows, FlagRows, HandleRows, HeadingRows, LimitRows, LineRows, NumberRows, PathRows};

/// Numbers, in rows.
pub fn numbers_in_rows()
    ensures { NumberRows }
{}

/// Paths, in rows.
pub fn paths_in_rows()
    ensures { PathRows }
{}

/// Handles, in rows.
pub fn handles_in_rows()
    ensures { HandleRows }
{}

/// Flags and what a seek counts from, in rows.
pub fn flags_in_rows()
    ensures { FlagRows }
{}

/// Data, in rows.
pub fn data_in_rows()
    ensures { DataRows }
{}

/// Words and calls, in rows.
pub fn calls_in_rows()
    ensures { CallRows }
{}

/// Lines, in rows.
pub fn lines_in_rows()
    ensures { LineRows }
{}

/// Headings, in rows.
pub fn headings_in_rows()
    ensures { HeadingRows }
{}

/// The most calls, in rows.
pub fn limits_in_rows()
    ensures { LimitRows }
{}
