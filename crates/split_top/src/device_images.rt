//! The image of a device.
ghost use Rattle.std.specs.Prelude.{List, ℕ};
ghost use Rattle.command_line.specs.pm_model.Cells.{AllSingle};
ghost use Rattle.split_top.specs.Devices.{IsDeviceOf};

use pm_lines::Pm;

/// Each device is that of some image. No bytes are made, and nothing of the device is kept: a compiler
/// leaves the loop out.
pub(crate) fn has_image(pm: &Pm)
    requires { AllSingle pm.now }
    ensures { (bytes : List ℕ) × IsDeviceOf bytes pm.now }
{
    // It bounds the words.
    for word in 0..pm.words() {
        let _value = pm.read_word(word);
    }
}
