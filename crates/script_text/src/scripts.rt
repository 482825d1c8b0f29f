//! The scripts of a text, line by line.
ghost use Rattle.std.specs.Prelude.{◌≡◌, None, IfOk, IfErr};
ghost use Rattle.script_text.specs.Faults.{IsFault};
ghost use Rattle.script_text.specs.Scripts.{bad_line, scripts_of};

use crate::faults::ScriptFault;
use crate::kinds::kind_of;
use crate::lines::split_line;
use crate::reading::Reading;
use posix_types::Scripts;
use std::alloc::Global;

/// The most bytes of a script.
const LONGEST_SCRIPT: usize = 4_194_304;

/// The scripts of a text, or the first line that breaks the grammar or a limit. It may run out of memory
/// for either.
#[tactic(auto, unfolding(crate::specs::Scripts::bad_line))]
pub fn read_script(alloc: Global, bytes: &[u8]) -> Result<Scripts, ScriptFault>
    ensures ok { IfOk result (λ scripts. scripts ≡ scripts_of bytes.now) }
    ensures sound { IfOk result (λ scripts. bad_line bytes.now ≡ None) }
    ensures bad { IfErr result (IsFault bytes.now) }
{
    if bytes.len() > LONGEST_SCRIPT {
        return Err(ScriptFault::Bad { line: 0 });
    }
    let mut reading = Reading::new(alloc);
    let mut rest = bytes;
    let mut line = 0;
    while !rest.is_empty() {
        let (text, behind) = split_line(rest);
        rest = behind;
        line += 1;
        let kind = kind_of(alloc, text)?;
        if reading.breaks(&kind) {
            return Err(ScriptFault::Bad { line });
        }
        reading.take(alloc, kind)?;
    }
    let scripts = reading.finish()?;
    Ok(scripts)
}
