//! Why a text is no script.
ghost use Rattle.std.specs.Prelude.{◌≡◌};

use std::alloc::AllocError;
use thiserror::Error;

/// Why a text is no script.
#[derive(Clone, Copy, Debug, PartialEq, Eq, Error)]
pub enum ScriptFault {
    /// This line, from 1, is the first that breaks the grammar or a limit; 0 where the script has
    /// too many bytes.
    #[error("line {line} breaks the grammar of scripts")]
    Bad { line: u32 },
    /// There is no memory for the scripts.
    #[error("no memory is left")]
    NoMemory,
}

impl From<AllocError> for ScriptFault {
    ghost use Rattle.script_text.specs.declared.faults.ScriptFault.TheVariants.{NoMemory};

    ghost from_gives = { λ _ fault. fault ≡ NoMemory };

    fn from(_: AllocError) -> ScriptFault {
        ScriptFault::NoMemory
    }
}
