//! The scripts of a run.
ghost use Rattle.std.specs.Prelude.{◌≡◌};

use crate::call::Call;
use std::alloc::AllocError;
use std::marker::Model;

/// The calls of one script, in order. Contracts see a list of calls.
#[derive(Drop)]
pub struct CallList {
    pub calls: Vec<Call>,
}

impl Model for CallList {
    ghost use Rattle.std.specs.Prelude.{List};
    ghost use Rattle.posix_types.specs.declared.call.Call.{Call};

    ghost Value = { List Call };

    ghost view = { λ list. list.calls.items };
}

impl Clone for CallList {
    ghost is_clone = { λ a b. b ≡ a };

    fn clone(&self) -> Result<CallList, AllocError> {
        let calls = self.calls.clone()?;
        Ok(CallList { calls })
    }
}

/// The calls of the set-up, and those of each thread. Contracts see a list of calls, and a list of
/// such lists.
#[derive(Drop)]
pub struct Scripts {
    pub setup: CallList,
    pub threads: Vec<CallList>,
}

impl Model for Scripts {
    ghost use Rattle.posix_types.specs.Scripts as plain;

    ghost Value = { plain.Scripts };

    ghost view = { λ scripts. record { setup = scripts.setup; threads = scripts.threads.items } };
}

impl Clone for Scripts {
    ghost is_clone = { λ a b. b ≡ a };

    fn clone(&self) -> Result<Scripts, AllocError> {
        let setup = self.setup.clone()?;
        let threads = self.threads.clone()?;
        Ok(Scripts { setup, threads })
    }
}
