//! The device of an image is mounted.
ghost use Rattle.std.specs.Prelude.{◌*◌, IfOk, length};
ghost use Rattle.command_line.specs.pm_model.Cells.{AllSingle};
ghost use Rattle.command_line.specs.pm_model.Images.{words_of};
ghost use Rattle.split_machine.specs.image_model.Rules.{IsChecked};
ghost use Rattle.split_top.specs.Found.{IsFoundOn};

use crate::laws;
use pm_lines::{Pm, Power};
use posix_types::Tree;
use split_machine::{KSplit, MountFault, mount};
use std::alloc::{AllocError, Global};

/// K-Split on an image, and the tree that is found there.
#[derive(Drop)]
pub(crate) struct Mounted {
    pub k: KSplit,
    pub tree: Tree,
}

/// Mounts the device of a checked image, with power for all of it, and reads its tree.
pub(crate) fn mount_image(alloc: Global, pm: Pm) -> Result<Mounted, AllocError>
    requires checked { IsChecked (8 * length pm) (words_of pm) }
    requires single { AllSingle pm }
    ensures { IfOk result (λ m. IsFoundOn (words_of pm) m.k m.tree) }
{
    laws::a_remount_shows_the_same();
    let mut power = Power::always();
    match mount(alloc, pm, false, &mut power) {
        Ok(k) => {
            let tree = k.tree(alloc)?;
            Ok(Mounted { k, tree })
        }
        Err(MountFault::NoMemory) => Err(AllocError),
        Err(MountFault::Bad(_)) => unreachable!(),
        Err(MountFault::PowerLost(_)) => unreachable!(),
    }
}
