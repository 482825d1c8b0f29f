//! Translations that are kept, over the border of two regions.
ghost use Rattle.std.specs.Prelude.{◌<◌};
ghost use Rattle.data_route.specs.map_collection.Kept.{Agrees, KeepsOthers};

use data_route::Collection;
use extent_map::{Extent, ExtentMap};
use std::alloc::{AllocError, Global};
use std::test::Fail;

const FIRST: u32 = 4;

// Puts a run into the map of an inode, of which nothing is kept then.
fn replace(
    collection: &mut Collection,
    ino: u32,
    map: &mut ExtentMap,
    run: Extent,
) -> Result<(), AllocError>
    requires in_file { run.file < 2048 }
    requires on_disk { run.disk < 65536 }
    requires count { run.count < 2048 }
    requires agrees { Agrees collection.old ino map.old }
    ensures agrees { Agrees collection.new ino map.new }
    ensures others { KeepsOthers ino collection.old collection.new }
{
    let _displaced = map.replace_range(run)?;
    collection.forget(ino);
    Ok(())
}

// Whether two blocks at the border of the first two regions have these disk blocks.
fn has_at_border(
    collection: &mut Collection,
    map: &ExtentMap,
    before: u32,
    behind: u32,
) -> Result<bool, AllocError>
    requires { Agrees collection.old FIRST map.now }
    ensures { Agrees collection.new FIRST map.now }
{
    let last = collection.lookup(FIRST, 511, map)?;
    let next = collection.lookup(FIRST, 512, map)?;
    Ok(last == Some(before) && next == Some(behind))
}

// An extent over the border of two regions; then a block behind the border is replaced.
fn is_read_over_the_border(alloc: Global) -> Result<bool, AllocError> {
    let mut collection = Collection::new(alloc);
    let mut map = ExtentMap::new(alloc);
    let run = Extent {
        file: 510,
        disk: 100,
        count: 4,
    };
    let block = Extent {
        file: 512,
        disk: 300,
        count: 1,
    };
    replace(&mut collection, FIRST, &mut map, run)?;
    let is_whole = has_at_border(&mut collection, &map, 101, 102)?;
    replace(&mut collection, FIRST, &mut map, block)?;
    Ok(has_at_border(&mut collection, &map, 101, 300)? && is_whole)
}

#[test]
fn region_boundary(rt: HostRuntime) -> Result<(), Fail> {
    assert!(rt; is_read_over_the_border(rt.alloc())?);
    Ok(())
}
