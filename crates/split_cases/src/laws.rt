//! The law of a load, for the layer that runs it.
ghost use Rattle.split_cases.specs.Load.{LoadsAreScripts};

use script_text::scripts_are_read_back;

/// The text of a load of at most 500 calls for each of at most 8 threads is a script, and is read as its scripts.
pub fn load_is_a_script()
    ensures { LoadsAreScripts }
{
    scripts_are_read_back();
}
