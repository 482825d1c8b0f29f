//! The tree of the names: every path with the inode that it leads to.
ghost use Rattle.std.specs.Prelude.{◌≡◌, ◌∷◌, [], ℕ, List, All, count_by, flat_map, sum_by, IfOk, OnOk};
ghost use Rattle.layout_model.specs.Tables.{IsKeyed};
ghost use Rattle.k_tables.specs.TablesTrees.{child_in, child_place, children_at, is_at, tree_place, AddsChildren, AreShort, IsStanding, IsTree};
ghost use Rattle.posix_tables.specs.Places.{printed};

use k_names::NameTable;
use posix_tables::entries::is_root;
use posix_types::{Data, Name, Path};
use std::alloc::{AllocError, Global};

// No path that is listed has more names than 16, so there are so many lengths.
const LENGTHS: u32 = 17;

/// A path, its printed text, and the inode that it leads to.
#[derive(Debug, Drop)]
pub struct TreePlace {
    pub path: Path,
    pub text: Data,
    pub ino: u32,
}

// Each name behind a slash.
fn slashed(alloc: Global, names: &[Name]) -> Result<Vec<u8>, AllocError>
    ensures { IfOk result (λ text. text.items ≡ flat_map (λ name. 47 ∷ name) names.now) }
{
    let mut text = Vec::new(alloc);
    for name in names {
        text.push(b'/')?;
        text.extend_from_slice(name.bytes.as_slice())?;
    }
    Ok(text)
}

// A path as it is printed.
fn printed(alloc: Global, path: &Path) -> Result<Data, AllocError>
    ensures { IfOk result (λ text. text ≡ printed path.now) }
{
    let mut text = slashed(alloc, path.names.as_slice())?;
    if is_root(path) {
        text.push(b'/')?;
    }
    Data::of(text)
}

// The place of a path.
fn place_of(alloc: Global, path: Path, ino: u32) -> Result<TreePlace, AllocError>
    ensures { IfOk result (λ place. place ≡ tree_place path ino) }
{
    let text = printed(alloc, &path)?;
    Ok(TreePlace { path, text, ino })
}

// The inode of a name in a directory that has it.
fn child_in(names: &NameTable, parent: u32, name: &Name) -> u32
    ensures { result ≡ child_in names.now parent name.now }
{
    match names.find(parent, name) {
        Some((_line, child)) => child,
        None => 0,
    }
}

// The place of a name below another place.
fn child_place(
    alloc: Global,
    names: &NameTable,
    place: &TreePlace,
    name: &Name,
) -> Result<TreePlace, AllocError>
    ensures { IfOk result (λ child. child ≡ child_place names.now place.now name.now) }
{
    let mut path = place.path.clone()?;
    path.names.push(name.clone()?)?;
    place_of(alloc, path, child_in(names, place.ino, name))
}

// Puts the places of the names below a place behind the others.
fn push_children(
    alloc: Global,
    names: &NameTable,
    found: &mut Vec<TreePlace>,
    place: &TreePlace,
) -> Result<(), AllocError>
    ensures { OnOk result (AddsChildren names.now place.now found.old.items found.new.items) }
{
    let children = names.children(alloc, place.ino)?;
    for name in &children {
        found.push(child_place(alloc, names, place, name)?)?;
    }
    Ok(())
}

// The places of the names below so many places.
fn next_level(
    alloc: Global,
    names: &NameTable,
    level: &[TreePlace],
) -> Result<Vec<TreePlace>, AllocError>
    requires keyed { IsKeyed names.now }
    requires standing { All (IsStanding names.now) level.now }
    ensures standing { IfOk result (λ next. All (IsStanding names.now) next.items) }
    ensures count { IfOk result (λ next. (path : List (List ℕ)) → count_by (is_at path) next.items
        ≡ sum_by (children_at names.now path) level.now) }
{
    let mut next = Vec::new(alloc);
    for place in level {
        push_children(alloc, names, &mut next, place)?;
    }
    Ok(next)
}

// The place of the root.
fn root_level(alloc: Global) -> Result<Vec<TreePlace>, AllocError>
    ensures { IfOk result (λ places. places.items ≡ tree_place [] 0 ∷ []) }
{
    let path = Path {
        names: Vec::new(alloc),
    };
    let mut places = Vec::new(alloc);
    places.push(place_of(alloc, path, 0)?)?;
    Ok(places)
}

// All places, by the lengths of their paths.
fn places_by_length(alloc: Global, names: &NameTable) -> Result<Vec<TreePlace>, AllocError>
    requires { IsKeyed names.now }
    ensures { IfOk result (λ places. AreShort names.now 17 places.items) }
{
    let mut places = Vec::new(alloc);
    let mut level = root_level(alloc)?;
    for _length in 0..LENGTHS {
        let next = next_level(alloc, names, &level)?;
        places.append(&mut level)?;
        level = next;
    }
    Ok(places)
}

/// Every path of at most 16 names that leads to an inode, each once, in the byte order of the
/// printed paths. It takes memory for the places.
pub fn tree_places(alloc: Global, names: &NameTable) -> Result<Vec<TreePlace>, AllocError>
    requires { IsKeyed names.now }
    ensures { IfOk result (λ places. IsTree names.now places.items) }
{
    let mut places = places_by_length(alloc, names)?;
    places.sort_unstable_by(|a, b| a.text.as_slice().cmp(b.text.as_slice()));
    Ok(places)
}
