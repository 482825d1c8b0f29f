//! How a World begins.
ghost use Rattle.std.specs.Prelude.{◌≡◌, ◌≢◌, ◌%◌, ◌*◌, ◌<◌, ◌^◌, length, IfOk};
ghost use Rattle.world_rounds.specs.round_laws.log_replay.Quiet.{IsSpent};
ghost use Rattle.world_rounds.specs.round_laws.pm_model.Cells.{AllSingle};
ghost use Rattle.posix_types.specs.declared.call.Mode.{Mode};
ghost use Rattle.world_rounds.specs.round_laws.StartsLaws.{BeginsOver, WasMounted};
ghost use Rattle.world_begins.specs.world_parts.world_view_laws.Starts.{AreInLimits};
ghost use Rattle.split_world.specs.Mounts.{IsWorldAnswer};
ghost use Rattle.split_world.specs.Taken.{IsTaken};
ghost use Rattle.world_begins.specs.world_parts.Seen.{seen, IsKept};

use crate::laws;
use crate::world::World;
use pm_lines::{Pm, Power};
use posix_types::{Call, Mode, Scripts, Tree, Who};
use std::alloc::Global;
use world_begins::{NoMemory, Parts};
use world_rounds::{FileTable, KSplit, MountFault, OpenFiles, Staging, mount, no_calls, table_of};

// What the World of a K-Split that was mounted takes memory for.
#[derive(Drop)]
struct Taken {
    tree: Tree,
    tables: OpenFiles,
    files: FileTable,
    spare: Vec<(Who, Call)>,
}

// The tree of the device, the table of its sizes, and room.
fn taken_for(alloc: Global, k: &KSplit) -> Result<Taken, NoMemory>
    requires { WasMounted k.now }
    ensures { IfOk result (IsTaken k.now) }
{
    laws::a_world_begins();
    let spare = Vec::with_capacity(alloc, 1)?;
    let tables = OpenFiles::new(alloc)?;
    let files = table_of(alloc, k)?;
    let tree = k.tree(alloc)?;
    Ok(Taken {
        tree,
        tables,
        files,
        spare,
    })
}

// The parts of the World of a K-Split that was mounted: the tree of the device is the start of the history.
fn parts_with(alloc: Global, k: KSplit, taken: Taken, mode: Mode, scripts: Scripts) -> Parts
    requires mounted { WasMounted k }
    requires taken { IsTaken k taken }
    requires mode { mode ≢ Mode.Posix }
    requires limits { AreInLimits scripts }
    ensures { IsKept result × BeginsOver k mode scripts (seen result) }
{
    laws::a_world_begins();
    let geometry = *k.geometry();
    let base = k.log_base();
    let shape = geometry.shape();
    Parts {
        k,
        tables: taken.tables,
        staging: Staging::new(alloc),
        files: taken.files,
        geometry,
        base,
        tree: taken.tree,
        shape,
        mode,
        scripts,
        history: Vec::new(alloc),
        counters: no_calls(),
        settled: 0,
        claims: Vec::new(alloc),
        pending: Vec::new(alloc),
        unfinished: None,
        spare: taken.spare,
        over: None,
        given_up: 0,
        acts: 0,
        lines_out: false,
        home: Vec::new(alloc),
        first: Vec::new(alloc),
        lost: false,
        usable: true,
    }
}

impl World {
    // The World of a K-Split that was mounted.
    fn over(alloc: Global, k: KSplit, mode: Mode, scripts: Scripts) -> Result<World, NoMemory>
        requires mounted { WasMounted k }
        requires mode { mode ≢ Mode.Posix }
        requires limits { AreInLimits scripts }
        ensures { IfOk result (λ w. BeginsOver k mode scripts w) }
    {
        let taken = taken_for(alloc, &k)?;
        Ok(World {
            parts: parts_with(alloc, k, taken, mode, scripts),
        })
    }

    /// Mounts a device, and begins a World on it: the tree that is found is the start of the history.
    ///
    /// Nothing of the device is lent, and each word has one candidate. The mode is strict or sync; the scripts have at most
    /// 4,096 calls and 8 threads, and the names of their paths are spelled.
    ///
    /// # Errors
    ///
    /// Those of [`round_laws::log_mount::mount`]: `Bad` exactly where the image breaks a rule, and nothing was done; else
    /// `PowerLost` exactly where the power is off at the return, with the device. Out of memory is the only other
    /// one: the device is dropped then, as it is with `Bad`, and the scripts with each.
    pub fn mount(
        alloc: Global,
        pm: Pm,
        mode: Mode,
        scripts: Scripts,
        power: &mut Power,
    ) -> Result<World, MountFault>
        requires single { AllSingle pm }
        requires whole { length pm % 512 ≡ 0 }
        requires fits { 8 * length pm < 2 ^ 64 }
        requires mode { mode ≢ Mode.Posix }
        requires limits { AreInLimits scripts }
        ensures spent { IsSpent power.old power.new }
        ensures answer { IsWorldAnswer pm mode scripts power.old power.new result }
    {
        laws::a_world_begins();
        let k = mount(alloc, pm, false, power)?;
        match World::over(alloc, k, mode, scripts) {
            Ok(world) => Ok(world),
            Err(_) => Err(MountFault::NoMemory),
        }
    }
}
