//! Laws of scripts, for the layer that runs them.
ghost use Rattle.script_text.specs.Known.{KnownCallsAlone};
ghost use Rattle.script_text.specs.Laws.{LinesAreCut, PathsAreSpelled, ScriptsAreSpelled, ScriptsAreWithinLimits};
ghost use Rattle.script_text.specs.Written.{CallsAreReadBack, ScriptsAreReadBack};

/// The names of a path that a word spells are spelled.
pub fn paths_are_spelled()
    ensures { PathsAreSpelled }
{}

/// All paths of the calls of a script are spelled.
pub fn scripts_are_spelled()
    ensures { ScriptsAreSpelled }
{}

/// A script without a bad line has at most 8 threads and 4,096 calls, those of the set-up counted.
pub fn scripts_are_within_limits()
    ensures { ScriptsAreWithinLimits }
{}

/// What a call is printed as is read as that call, where its parts are such as a script can have.
pub fn calls_are_read_back()
    ensures { CallsAreReadBack }
{}

/// What scripts are printed as is read as these scripts, where their calls are such as a script can have, within the
/// limits.
pub fn scripts_are_read_back()
    ensures { ScriptsAreReadBack }
{}

/// The lines of a script, joined by their ends, are its bytes; they are cut at each byte 10.
pub fn lines_are_cut()
    ensures { LinesAreCut }
{}

/// The calls of a script are those of the table of known words.
pub fn scripts_have_known_words()
    ensures { KnownCallsAlone }
{}
