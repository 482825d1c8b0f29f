//! Nodes and their names.
ghost use Rattle.std.specs.Prelude.{◌≡◌, [], length, count_by, slice_set};
ghost use Rattle.posix_tables.specs.Nodes.{bytes_of, is_directory, is_live, node_at, published_node, published_of};

use posix_types::{Data, Name};
use std::alloc::AllocError;

/// A file: its bytes, and its published length in bytes.
#[derive(Drop)]
pub struct File {
    pub bytes: Data,
    pub published: u64,
}

impl Clone for File {
    ghost is_clone = { λ a b. b ≡ a };

    fn clone(&self) -> Result<File, AllocError> {
        let bytes = self.bytes.clone()?;
        Ok(File {
            bytes,
            published: self.published,
        })
    }
}

/// What a node number stands for. A number whose node went is never used again.
#[derive(Drop)]
pub enum Node {
    Gone,
    Directory,
    File(File),
}

impl Clone for Node {
    ghost is_clone = { λ a b. b ≡ a };

    fn clone(&self) -> Result<Node, AllocError> {
        match self {
            Node::Gone => Ok(Node::Gone),
            Node::Directory => Ok(Node::Directory),
            Node::File(file) => Ok(Node::File(file.clone()?)),
        }
    }
}

/// A name: the number of its directory, its bytes, and the number of the node that it leads to.
#[derive(Drop)]
pub struct DirEntry {
    pub parent: usize,
    pub name: Name,
    pub child: usize,
}

impl Clone for DirEntry {
    ghost is_clone = { λ a b. b ≡ a };

    fn clone(&self) -> Result<DirEntry, AllocError> {
        let name = self.name.clone()?;
        Ok(DirEntry {
            parent: self.parent,
            name,
            child: self.child,
        })
    }
}

fn is_live(node: &Node) -> bool
    ensures { result ≡ is_live node.now }
{
    match node {
        Node::Gone => false,
        Node::Directory => true,
        Node::File(_) => true,
    }
}

/// How many numbers stand for a directory or a file.
pub fn count_live(nodes: &[Node]) -> usize
    ensures { result ≡ count_by is_live nodes.now }
{
    nodes.iter().filter(|node| is_live(node)).count()
}

/// Whether a number stands for a directory.
pub fn is_directory(nodes: &[Node], number: usize) -> bool
    ensures { result ≡ is_directory nodes.now number }
{
    if number >= nodes.len() {
        return false;
    }
    match &nodes[number] {
        Node::Gone => false,
        Node::Directory => true,
        Node::File(_) => false,
    }
}

/// The length of a file in bytes, and 0 of what is no file.
pub fn length_of(node: &Node) -> u64
    ensures { result ≡ length (bytes_of node.now) }
{
    match node {
        Node::Gone => 0,
        Node::Directory => 0,
        Node::File(file) => file.bytes.len() as u64,
    }
}

/// The bytes of a file, and none of any other number.
pub fn bytes_at(nodes: &[Node], number: usize) -> &[u8]
    ensures { result.now ≡ bytes_of (node_at nodes.now number) }
{
    if number >= nodes.len() {
        return &[];
    }
    match &nodes[number] {
        Node::Gone => &[],
        Node::Directory => &[],
        Node::File(file) => file.bytes.as_slice(),
    }
}

/// The published length of a file in bytes, and 0 of any other number.
pub fn published_at(nodes: &[Node], number: usize) -> u64
    ensures { result ≡ published_of (node_at nodes.now number) }
{
    if number >= nodes.len() {
        return 0;
    }
    match &nodes[number] {
        Node::Gone => 0,
        Node::Directory => 0,
        Node::File(file) => file.published,
    }
}

/// Puts a node under a number that is there.
pub fn set_node(nodes: &mut [Node], number: usize, node: Node)
    ensures { nodes.new ≡ slice_set nodes.old number node }
{
    if number < nodes.len() {
        nodes[number] = node;
    }
}

/// Publishes the length of a file.
pub fn publish(nodes: &mut [Node], number: usize)
    ensures { nodes.new ≡ slice_set nodes.old number (published_node (node_at nodes.old number)) }
{
    if number < nodes.len() {
        if let Node::File(file) = &mut nodes[number] {
            file.published = file.bytes.len() as u64;
        }
    }
}
