//! What may be left of a state that is nearest to a tree: each byte is as the tree wants it, if it may
//! be. Where the tree may be left at all, this is what leaves it.
ghost use Rattle.std.specs.Prelude.{◌≡◌, ◌<◌, ◌↔◌, IfOk, IsTrue, length, slice_index, take};
ghost use Rattle.crash_spec.specs.Posix.{TreeLeft};
ghost use Rattle.crash_judge.specs.Effects.{EffectRule};
ghost use Rattle.crash_judge.specs.Nearest.{AreNearest, IsNearest, nearest};

use crate::judge_bytes::effects::{Effect, may_be, newest};
use crate::judge_bytes::wanting::{byte_at, numbers_of, wanted};
use crash_spec::{Data, State, Tree, TreeEntry};
use posix_tables::nodes::{File, Node};
use posix_tables::places::tree_entries;
use std::alloc::{AllocError, Global};

fn nearest(effects: &[Effect], extra: &[Effect], n: usize, i: usize, v: u8, x: u8) -> u8
    ensures { result ≡ nearest effects.now extra.now n i v x }
{
    if may_be(effects, extra, n, i, v, x) {
        x
    } else {
        newest(effects, n, i, v)
    }
}

fn published_bytes(file: &File) -> &[u8]
    ensures { result.now ≡ take file.now.published file.now.bytes }
{
    let bytes = file.bytes.as_slice();
    if file.published < bytes.len() as u64 {
        &bytes[..file.published as usize]
    } else {
        bytes
    }
}

fn nearest_bytes(
    alloc: Global,
    effects: &[Effect],
    extra: &[Effect],
    n: usize,
    want: &[u8],
    file: &File,
) -> Result<Data, AllocError>
    ensures { IfOk result (λ bytes. IsNearest effects.now extra.now n want.now file.now bytes) }
{
    let mut bytes = Vec::new(alloc);
    for (i, v) in published_bytes(file).iter().enumerate() {
        bytes.push(nearest(effects, extra, n, i, *v, byte_at(want, i)))?;
    }
    let left = Data::of(bytes)?;
    Ok(left)
}

fn nearest_nodes(
    alloc: Global,
    effects: &[Effect],
    extra: &[Effect],
    numbers: &[usize],
    left: &[TreeEntry],
    nodes: &[Node],
) -> Result<Vec<Node>, AllocError>
    ensures { IfOk result (λ new.
        AreNearest effects.now extra.now numbers.now left.now nodes.now new.items) }
{
    let mut new = Vec::new(alloc);
    for (n, node) in nodes.iter().enumerate() {
        let made = match node {
            Node::Gone => Node::Gone,
            Node::Directory => Node::Directory,
            Node::File(file) => Node::File(File {
                bytes: nearest_bytes(alloc, effects, extra, n, wanted(numbers, left, n), file)?,
                published: file.published,
            }),
        };
        new.push(made)?;
    }
    Ok(new)
}

/// Whether a tree may be left of a state: names stay, files are cut to their published lengths, and
/// each byte is one that the effects allow.
pub fn is_left(
    alloc: Global,
    state: &State,
    effects: &[Effect],
    extra: &[Effect],
    left: &Tree,
) -> Result<bool, AllocError>
    ensures { IfOk result (λ is.
        IsTrue is ↔ TreeLeft (EffectRule effects.now extra.now) state.now left.now) }
{
    let numbers = numbers_of(alloc, state.nodes().len(), state.entries())?;
    let nodes = nearest_nodes(
        alloc,
        effects,
        extra,
        &numbers,
        &left.entries,
        state.nodes(),
    )?;
    let entries = tree_entries(alloc, &nodes, state.entries())?;
    let found = Tree { entries };
    Ok(*left == found)
}
