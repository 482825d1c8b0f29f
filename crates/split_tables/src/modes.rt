//! The modes of scripts, by the words of commands and rows.
use posix_spec::Mode;

// The mode that a word names.
pub(crate) fn mode_of(word: &str) -> Option<Mode> {
    match word {
        "strict" => Some(Mode::Strict),
        "sync" => Some(Mode::Sync),
        "posix" => Some(Mode::Posix),
        _ => None,
    }
}

// The word of a mode.
pub(crate) fn word_of(mode: Mode) -> &'static str {
    match mode {
        Mode::Strict => "strict",
        Mode::Sync => "sync",
        Mode::Posix => "posix",
    }
}
