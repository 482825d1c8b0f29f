//! The bytes that a tree wants of a node, found by the numbers of the places.
ghost use Rattle.std.specs.Prelude.{◌≡◌, ◌<◌, ◌==◌, [], IfOk, length, map, slice_index};
ghost use Rattle.crash_judge.specs.Wanted.{AreLabels, entry_bytes, label, numbers_of, told_number, wanted};

use crash_spec::{Data, TreeEntry, TreeNode};
use posix_tables::nodes::{DirEntry, File, Node};
use posix_tables::places::tree_entries;
use std::alloc::{AllocError, Global};

fn label(alloc: Global, k: usize) -> Result<Node, AllocError>
    ensures { IfOk result (λ node. node ≡ label k) }
{
    let bytes = vec![in alloc; 0; k]?;
    Ok(Node::File(File {
        bytes: Data::of(bytes)?,
        published: 0,
    }))
}

/// Nodes that tell their own numbers.
fn labels(alloc: Global, count: usize) -> Result<Vec<Node>, AllocError>
    ensures { IfOk result (λ nodes. AreLabels count nodes.items) }
{
    let mut nodes = Vec::new(alloc);
    for k in 0..count {
        nodes.push(label(alloc, k)?)?;
    }
    Ok(nodes)
}

fn told_number(count: usize, node: &TreeNode) -> usize
    ensures { result ≡ told_number count node.now }
{
    match node {
        TreeNode::Directory => count,
        TreeNode::File(bytes) => bytes.len(),
    }
}

fn told_numbers(
    alloc: Global,
    count: usize,
    entries: &[TreeEntry],
) -> Result<Vec<usize>, AllocError>
    ensures { IfOk result (λ numbers.
        numbers.items ≡ map (λ entry. told_number count entry.node) entries.now) }
{
    entries
        .iter()
        .map(|entry| told_number(count, &entry.node))
        .collect(alloc)
}

/// The numbers of the nodes that the places of these names lead to, in the order of the tree; the
/// count of the nodes stands for a number that is no node's.
pub fn numbers_of(
    alloc: Global,
    count: usize,
    entries: &[DirEntry],
) -> Result<Vec<usize>, AllocError>
    ensures { IfOk result (λ numbers. numbers.items ≡ numbers_of count entries.now) }
{
    let nodes = labels(alloc, count)?;
    let tree = tree_entries(alloc, &nodes, entries)?;
    told_numbers(alloc, count, &tree)
}

fn entry_bytes(node: &TreeNode) -> &[u8]
    ensures { result.now ≡ entry_bytes node.now }
{
    match node {
        TreeNode::Directory => &[],
        TreeNode::File(bytes) => bytes.as_slice(),
    }
}

/// The bytes that a tree wants of a node.
pub fn wanted<'a>(numbers: &[usize], left: &'a [TreeEntry], n: usize) -> &'a [u8]
    ensures { result.now ≡ wanted numbers.now left.now n }
{
    match (numbers.split_first(), left.split_first()) {
        (Some((m, numbers)), Some((entry, left))) => {
            if *m == n {
                entry_bytes(&entry.node)
            } else {
                wanted(numbers, left, n)
            }
        }
        _ => &[],
    }
}

/// The byte at a place, and 0 past the end.
pub fn byte_at(bytes: &[u8], i: usize) -> u8
    ensures { result ≡ slice_index bytes.now i }
{
    match bytes.get(i) {
        None => 0,
        Some(x) => *x,
    }
}
