//! A run of scripts: their calls in a World on an image, and what is read back of it.
ghost use Rattle.std.specs.Prelude.{◌≡◌, ◌≢◌, false, List, ℕ, IfOk};
ghost use Rattle.command_line.specs.pm_model.Cells.{AllSingle};
ghost use Rattle.command_line.specs.pm_model.Images.{words_of};
ghost use Rattle.command_line.specs.pm_model.Words.{word_at};
ghost use Rattle.command_line.specs.Seen.{seen_options};
ghost use Rattle.split_machine.specs.image_model.Rules.{geometry_of};
ghost use Rattle.split_machine.specs.crash_spec.Permitted.{StronglyPermitted};
ghost use Rattle.command_line.specs.posix_spec.Run.{Unfinished};
ghost use Rattle.command_line.specs.posix_spec.State.{State};
ghost use Rattle.posix_types.specs.declared.item.Item as items;
ghost use Rattle.split_top.specs.Devices.{CanMount, IsDeviceOf};
ghost use Rattle.split_top.specs.Found.{IsEndedAs, IsFoundBy, IsLeftAs, IsReadBack};
ghost use Rattle.split_top.specs.Images.{IsMounted};
ghost use Rattle.split_top.specs.Runs.{IsRun, Task};
ghost use Rattle.split_machine.specs.world_view_laws.Starts.{AreInLimits};
ghost use Rattle.split_top.specs.Worlds.{BeginsOn, IsRanOn, IsWorldOn};

use crate::laws;
use crate::mounting::mount_image;
use crate::opening::Opened;
use crate::remounting::{crashed_device, remounted};
use command_line::{Geometry, Options, read_order};
use pm_lines::{Pm, Power};
use posix_types::{Call, Item, Mode, Scripts, Tree, Who};
use split_machine::{Ended, MountFault, NoMemory, World, run as run_scripts};
use split_threads::power_for;
use std::alloc::{AllocError, Global};

/// What a run leaves: the calls that returned, those that had begun and did not, the tree that is found afterwards, and the
/// device of the image that shows it.
#[derive(Drop)]
pub struct Ran {
    pub history: Vec<Item>,
    pub unfinished: Vec<(Who, Call)>,
    pub tree: Tree,
    pub pm: Pm,
}

/// What is found on a device: the tree, and the device as the mount leaves it.
#[derive(Drop)]
struct Left {
    tree: Tree,
    pm: Pm,
}

/// The World of scripts on the device of an image.
pub(crate) fn world_on(
    alloc: Global,
    opened: Opened,
    scripts: Scripts,
    mode: Mode,
) -> Result<World, NoMemory>
    requires mounts { CanMount opened.geometry opened.pm }
    requires limits { AreInLimits scripts }
    requires mode { mode ≢ Mode.Posix }
    ensures { IfOk result (BeginsOn (words_of opened.pm) opened.geometry scripts mode) }
{
    let mut power = Power::always();
    match World::mount(alloc, opened.pm, mode, scripts, &mut power) {
        Ok(world) => Ok(world),
        Err(MountFault::NoMemory) => Err(NoMemory {}),
        Err(MountFault::Bad(_)) => unreachable!(),
        Err(MountFault::PowerLost(_)) => unreachable!(),
    }
}

/// What is found on the device that a run left: the choice is applied to it, and the device of that image is mounted
/// again, once for each number of `again` and then with power for all of it.
fn left_on(
    alloc: Global,
    pm: &Pm,
    geometry: &Geometry,
    options: &Options<'_>,
) -> Result<Left, AllocError>
    requires { (start : State) × (history : List items.Item) × (unfinished : List Unfinished) × IsLeftAs geometry.now pm.now start history unfinished }
    ensures found { IfOk result (λ left. IsFoundBy geometry.now options.now.choice (seen_options options.now).again pm.now left.tree) }
    ensures permitted { IfOk result (λ left. (start : State) (history : List items.Item) (unfinished : List Unfinished) → IsLeftAs geometry.now pm.now start history unfinished → StronglyPermitted start.mode start history unfinished left.tree) }
    ensures single { IfOk result (λ left. AllSingle left.pm) }
    ensures mounted { IfOk result (λ left. (kept : List ℕ) → IsDeviceOf kept left.pm → IsMounted kept left.tree) }
    ensures numbers { IfOk result (λ left. (kept : List ℕ) → IsDeviceOf kept left.pm → geometry_of (word_at kept) ≡ geometry.now) }
{
    let crashed = crashed_device(alloc, pm, geometry, options.choice)?;
    let last = remounted(alloc, crashed, geometry, options)?;
    let mounted = mount_image(alloc, last)?;
    let kept = mounted.k.into_pm();
    Ok(Left {
        tree: mounted.tree,
        pm: kept,
    })
}

/// What is read back of a run that ended on a device with these numbers.
pub(crate) fn read_back(
    alloc: Global,
    ended: Ended,
    geometry: Geometry,
    options: &Options<'_>,
) -> Result<Ran, AllocError>
    requires { (start : State) × IsEndedAs geometry start ended }
    ensures back { IfOk result (λ ran. IsReadBack geometry ended ran.history.items ran.unfinished.items ran.tree) }
    ensures single { IfOk result (λ ran. AllSingle ran.pm) }
    ensures mounted { IfOk result (λ ran. (kept : List ℕ) → IsDeviceOf kept ran.pm → IsMounted kept ran.tree) }
    ensures numbers { IfOk result (λ ran. (kept : List ℕ) → IsDeviceOf kept ran.pm → geometry_of (word_at kept) ≡ geometry) }
{
    match ended {
        Ended::Whole { pm, history } => {
            let left = left_on(alloc, &pm, &geometry, options)?;
            Ok(Ran {
                history,
                unfinished: Vec::new(alloc),
                tree: left.tree,
                pm: left.pm,
            })
        }
        Ended::Lost(crashed) => {
            let left = left_on(alloc, &crashed.pm, &geometry, options)?;
            Ok(Ran {
                history: crashed.history,
                unfinished: crashed.unfinished,
                tree: left.tree,
                pm: left.pm,
            })
        }
    }
}

/// Runs a World in which nothing has begun, on a device with these numbers, and reads back what is left.
fn run_world(
    alloc: Global,
    world: World,
    geometry: Geometry,
    options: &Options<'_>,
) -> Result<Ran, NoMemory>
    requires { (task : Task) × IsWorldOn geometry task world }
    ensures ran { IfOk result (λ ran. (task : Task) → IsWorldOn geometry task world
        → IsRun task (seen_options options.now) ran.history.items ran.unfinished.items ran.tree) }
    ensures single { IfOk result (λ ran. AllSingle ran.pm) }
    ensures mounted { IfOk result (λ ran. (kept : List ℕ) → IsDeviceOf kept ran.pm → IsMounted kept ran.tree) }
    ensures numbers { IfOk result (λ ran. (kept : List ℕ) → IsDeviceOf kept ran.pm → geometry_of (word_at kept) ≡ geometry) }
{
    laws::a_round_goes_beside();
    let order = read_order(alloc, &options.order)?;
    let mut power = power_for(options.stop);
    let ended = run_scripts(alloc, world, order, options.cut, &mut power)?;
    Ok(read_back(alloc, ended, geometry, options)?)
}

/// Runs scripts on the device of an image, and reads back what is left.
pub(crate) fn run(
    alloc: Global,
    opened: Opened,
    scripts: Scripts,
    options: &Options<'_>,
) -> Result<Ran, NoMemory>
    requires mounts { CanMount opened.geometry opened.pm }
    requires limits { AreInLimits scripts }
    requires mode { options.now.mode ≢ Mode.Posix }
    ensures ran { IfOk result (λ ran.
        IsRanOn false (words_of opened.pm) opened.geometry scripts (seen_options options.now) ran.history.items ran.unfinished.items ran.tree) }
    ensures single { IfOk result (λ ran. AllSingle ran.pm) }
    ensures mounted { IfOk result (λ ran. (kept : List ℕ) → IsDeviceOf kept ran.pm → IsMounted kept ran.tree) }
    ensures numbers { IfOk result (λ ran. (kept : List ℕ) → IsDeviceOf kept ran.pm
        → geometry_of (word_at kept) ≡ opened.geometry) }
{
    let geometry = opened.geometry;
    let world = world_on(alloc, opened, scripts, options.mode)?;
    run_world(alloc, world, geometry, options)
}
