//! The calls of a caller's script.
ghost use Rattle.std.specs.Prelude.{◌≡◌, length, slice_get, IfOk};
ghost use Rattle.std.specs.Option.{option_copied};
ghost use Rattle.live_model.specs.commute_laws.posix_spec.Scripted.{script_of};

use posix_types::{Call, Scripts, Who};
use std::alloc::AllocError;

/// How many calls a caller's script has.
pub fn script_length(scripts: &Scripts, who: Who) -> usize
    ensures { result ≡ length (script_of scripts.now who) }
{
    match who {
        Who::Setup => scripts.setup.calls.len(),
        Who::Thread(number) => {
            let number = number as usize;
            if number < scripts.threads.len() {
                scripts.threads[number].calls.len()
            } else {
                0
            }
        }
    }
}

fn copy_at(calls: &[Call], place: usize) -> Result<Option<Call>, AllocError>
    ensures { IfOk result (λ call. call ≡ slice_get calls.now place) }
{
    if place < calls.len() {
        Ok(Some(calls[place].clone()?))
    } else {
        Ok(None)
    }
}

/// A copy of the call at a place of a caller's script, if there is one. The bytes of a write are shared, not copied: memory
/// is taken for the names of its paths alone.
///
/// # Errors
///
/// Out of memory.
pub fn call_at(scripts: &Scripts, who: Who, place: usize) -> Result<Option<Call>, AllocError>
    ensures { IfOk result (λ call. call ≡ slice_get (script_of scripts.now who) place) }
{
    match who {
        Who::Setup => copy_at(&scripts.setup.calls, place),
        Who::Thread(number) => {
            let number = number as usize;
            if number < scripts.threads.len() {
                copy_at(&scripts.threads[number].calls, place)
            } else {
                Ok(None)
            }
        }
    }
}

/// The call at a place of a caller's script, to be looked at.
pub fn next_in(scripts: &Scripts, who: Who, place: usize) -> Option<&Call>
    ensures { option_copied result ≡ slice_get (script_of scripts.now who) place }
{
    match who {
        Who::Setup => scripts.setup.calls.get(place),
        Who::Thread(number) => {
            let number = number as usize;
            if number < scripts.threads.len() {
                scripts.threads[number].calls.get(place)
            } else {
                None
            }
        }
    }
}
