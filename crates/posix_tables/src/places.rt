//! The tree of a state, and the state of a tree.
ghost use Rattle.std.specs.Prelude.{◌≡◌, ◌==◌, ◌≤◌, ◌∷◌, [], IfOk, find, flat_map, length, map, option_copied, position, unwrap_or};
ghost use Rattle.posix_tables.specs.Places.{entry_place, node_of, path_to, place_of, places, printed, tree_entry, tree_node, with_place};
ghost use Rattle.posix_tables.specs.Nodes.{node_at};
ghost use Rattle.posix_tables.specs.Names.{bytes_before};

use crate::entries::{bytes_before, is_root};
use crate::nodes::{DirEntry, File, Node};
use posix_types::{Data, Name, Path, TreeEntry, TreeNode};
use std::alloc::{AllocError, Global};

/// A path, its printed text, and the number of the node that it leads to.
#[derive(Drop)]
pub struct Place {
    pub path: Path,
    pub text: Data,
    pub node: usize,
}

/// Each name behind a slash.
fn slashed(alloc: Global, names: &[Name]) -> Result<Vec<u8>, AllocError>
    ensures { IfOk result (λ text. text.items ≡ flat_map (λ name. 47 ∷ name) names.now) }
{
    let mut text = Vec::new(alloc);
    for name in names {
        text.push(b'/')?;
        text.extend_from_slice(name.bytes.as_slice())?;
    }
    Ok(text)
}

/// A path as it is printed.
fn printed(alloc: Global, path: &Path) -> Result<Data, AllocError>
    ensures { IfOk result (λ text. text ≡ printed path.now) }
{
    let mut text = slashed(alloc, path.names.as_slice())?;
    if is_root(path) {
        text.push(b'/')?;
    }
    Data::of(text)
}

/// The first entry that leads to a node.
fn entry_to(entries: &[DirEntry], node: usize) -> Option<&DirEntry>
    ensures { option_copied result ≡ find (λ entry. entry.child == node) entries.now }
{
    entries.iter().find(|entry| entry.child == node)
}

/// The path of the root.
fn root_path(alloc: Global) -> Path
    ensures { result ≡ [] }
{
    Path {
        names: Vec::new(alloc),
    }
}

/// The path of a directory, going up at most `most` times.
#[tactic(auto, using(crate::proofs::Paths::path_to_none, crate::proofs::Paths::path_to_more))]
fn path_to(
    alloc: Global,
    entries: &[DirEntry],
    most: usize,
    node: usize,
) -> Result<Path, AllocError>
    ensures { IfOk result (λ path. path ≡ path_to entries.now most node) }
{
    if most == 0 {
        return Ok(root_path(alloc));
    }
    match entry_to(entries, node) {
        None => Ok(root_path(alloc)),
        Some(entry) => {
            let mut path = path_to(alloc, entries, most - 1, entry.parent)?;
            path.names.push(entry.name.clone()?)?;
            Ok(path)
        }
    }
}

/// Where an entry leads.
#[tactic(auto, unfolding(crate::specs::Places::entry_place))]
fn entry_place(alloc: Global, entries: &[DirEntry], entry: &DirEntry) -> Result<Place, AllocError>
    ensures { IfOk result (λ place. place ≡ entry_place entries.now entry.now) }
{
    let mut path = path_to(alloc, entries, entries.len(), entry.parent)?;
    path.names.push(entry.name.clone()?)?;
    let text = printed(alloc, &path)?;
    Ok(Place {
        path,
        text,
        node: entry.child,
    })
}

fn place_before(places: &[Place], text: &Data) -> Option<usize>
    ensures { result ≡ position (λ other. bytes_before text.now other.text) places.now }
{
    places.iter().position(|other| bytes_before(text.as_slice(), other.text.as_slice()))
}

fn insertion_place(places: &[Place], text: &Data) -> usize
    ensures value { result ≡ unwrap_or (position (λ other. bytes_before text.now other.text) places.now) (length places.now) }
    ensures within { result ≤ length places.now }
{
    match place_before(places, text) {
        Some(at) => at,
        None => places.len(),
    }
}

/// Puts a place at its point in the byte order of the printed paths.
#[tactic(auto, unfolding(crate::specs::Places::with_place))]
fn insert_place(places: &mut Vec<Place>, place: Place) -> Result<(), AllocError>
    ensures { IfOk result (λ _. places.new.items ≡ with_place places.old.items place) }
{
    let at = insertion_place(places, &place.text);
    places.insert(at, place)?;
    Ok(())
}

/// The root alone.
fn root_place(alloc: Global) -> Result<Vec<Place>, AllocError>
    ensures { IfOk result (λ places. places.items ≡ place_of [] 0 ∷ []) }
{
    let path = root_path(alloc);
    let text = printed(alloc, &path)?;
    let mut places = Vec::new(alloc);
    places.push(Place {
        path,
        text,
        node: 0,
    })?;
    Ok(places)
}

/// All paths with the nodes that they lead to, in the byte order of the printed paths.
#[tactic(auto, unfolding(crate::specs::Places::places))]
fn places(alloc: Global, entries: &[DirEntry]) -> Result<Vec<Place>, AllocError>
    ensures { IfOk result (λ found. found.items ≡ places entries.now) }
{
    let mut found = root_place(alloc)?;
    for entry in entries {
        insert_place(&mut found, entry_place(alloc, entries, entry)?)?;
    }
    Ok(found)
}

/// What a tree says of a node.
fn tree_node(nodes: &[Node], number: usize) -> Result<TreeNode, AllocError>
    ensures { IfOk result (λ node. node ≡ tree_node (node_at nodes.now number)) }
{
    if number >= nodes.len() {
        return Ok(TreeNode::Directory);
    }
    match &nodes[number] {
        Node::Gone => Ok(TreeNode::Directory),
        Node::Directory => Ok(TreeNode::Directory),
        Node::File(file) => Ok(TreeNode::File(file.bytes.clone()?)),
    }
}

/// The entry of a tree for a place.
fn tree_entry(nodes: &[Node], place: &Place) -> Result<TreeEntry, AllocError>
    ensures { IfOk result (λ entry. entry ≡ tree_entry nodes.now place.now) }
{
    let path = place.path.clone()?;
    let node = tree_node(nodes, place.node)?;
    Ok(TreeEntry { path, node })
}

/// All paths in byte order, each with what stands there.
pub fn tree_entries(
    alloc: Global,
    nodes: &[Node],
    entries: &[DirEntry],
) -> Result<Vec<TreeEntry>, AllocError>
    ensures { IfOk result (λ tree. tree.items ≡ map (tree_entry nodes.now) (places entries.now)) }
{
    let places = places(alloc, entries)?;
    let mut tree = Vec::new(alloc);
    for place in &places {
        tree.push(tree_entry(nodes, place)?)?;
    }
    Ok(tree)
}

/// The node that an entry of a tree begins as.
pub fn node_of(node: &TreeNode) -> Result<Node, AllocError>
    ensures { IfOk result (λ made. made ≡ node_of node.now) }
{
    match node {
        TreeNode::Directory => Ok(Node::Directory),
        TreeNode::File(bytes) => Ok(Node::File(File {
            published: bytes.len() as u64,
            bytes: bytes.clone()?,
        })),
    }
}
