//! Scripts, put behind a text.
ghost use Rattle.std.specs.Prelude.{◌≡◌, ◌++◌, OnOk, IfOk, flat_map};
ghost use Rattle.report_text.specs.Scripts.{call_line, calls_text, scripts_text, thread_text};

use crate::bytes::put_str;
use crate::calls::put_call;
use posix_types::{Call, CallList, Scripts};
use std::alloc::{AllocError, Global};

/// Puts the line of a call.
fn put_call_line(text: &mut Vec<u8>, call: &Call) -> Result<(), AllocError>
    ensures { OnOk result (text.new.items ≡ text.old.items ++ call_line call.now) }
{
    put_call(text, call)?;
    put_str(text, "\n")
}

/// Puts the lines of calls.
fn put_calls(text: &mut Vec<u8>, calls: &[Call]) -> Result<(), AllocError>
    ensures { OnOk result (text.new.items ≡ text.old.items ++ calls_text calls.now) }
{
    for call in calls {
        put_call_line(text, call)?;
    }
    Ok(())
}

/// Puts the script of a thread.
fn put_thread(text: &mut Vec<u8>, calls: &CallList) -> Result<(), AllocError>
    ensures { OnOk result (text.new.items ≡ text.old.items ++ thread_text calls.now) }
{
    put_str(text, "thread\n")?;
    put_calls(text, &calls.calls)
}

/// Puts the scripts of threads.
fn put_threads(text: &mut Vec<u8>, threads: &[CallList]) -> Result<(), AllocError>
    ensures { OnOk result (text.new.items ≡ text.old.items ++ flat_map thread_text threads.now) }
{
    for calls in threads {
        put_thread(text, calls)?;
    }
    Ok(())
}

/// The text of scripts, as a script is written: the calls of the set-up behind `setup`, those of each thread behind
/// `thread`, each on a line of its own. An error is out of memory, and leaves nothing.
#[tactic(auto, unfolding(crate::specs::Scripts::scripts_text))]
pub fn scripts_text(alloc: Global, scripts: &Scripts) -> Result<Vec<u8>, AllocError>
    ensures { IfOk result (λ text. text.items ≡ scripts_text scripts.now) }
{
    let mut text = Vec::new(alloc);
    put_str(&mut text, "setup\n")?;
    put_calls(&mut text, &scripts.setup.calls)?;
    put_threads(&mut text, &scripts.threads)?;
    Ok(text)
}
