//! Reads a tree as it is printed: a line for each path, `PATH dir` or `PATH file LENGTH DATA`.
use crate::faults::RowError;
use crate::tables::number;
use posix_spec::{Data, Name, Path, Tree, TreeEntry, TreeNode};
use std::alloc::Global;

// A hexadecimal digit.
fn digit(byte: u8) -> Result<u8, RowError> {
    match byte {
        b'0'..=b'9' => Ok(byte - b'0'),
        b'a'..=b'f' => Ok(byte - b'a' + 10),
        _ => Err(RowError::Misspelled),
    }
}

fn byte(pair: &[u8]) -> Result<u8, RowError> {
    if pair.len() != 2 {
        return Err(RowError::Misspelled);
    }
    let high = digit(pair[0])?;
    let low = digit(pair[1])?;
    Ok(high.wrapping_mul(16).wrapping_add(low))
}

// Adds N equal bytes, for `HH*N`.
fn put_equal(bytes: &mut Vec<u8>, pair: &str, count: &str) -> Result<(), RowError> {
    let value = byte(pair.as_bytes())?;
    for _ in 0..number(count)? {
        bytes.push(value)?;
    }
    Ok(())
}

// Adds the bytes of pairs of hexadecimal digits.
fn put_pairs(bytes: &mut Vec<u8>, text: &str) -> Result<(), RowError> {
    for pair in text.as_bytes().chunks(2) {
        bytes.push(byte(pair)?)?;
    }
    Ok(())
}

// `HH*N` for N equal bytes, or pairs of hexadecimal digits.
fn data(alloc: Global, text: &str) -> Result<Data, RowError> {
    let mut bytes = Vec::new(alloc);
    match text.split_once('*') {
        Some((pair, count)) => put_equal(&mut bytes, pair, count)?,
        None => put_pairs(&mut bytes, text)?,
    }
    Ok(Data::of(bytes)?)
}

// Adds a name.
fn add_name(names: &mut Vec<Name>, alloc: Global, name: &str) -> Result<(), RowError> {
    let bytes = Vec::from_slice(alloc, name.as_bytes())?;
    Ok(names.push(Name { bytes })?)
}

fn path(alloc: Global, text: &str) -> Result<Path, RowError> {
    let mut names = Vec::new(alloc);
    for name in text.split('/') {
        if !name.is_empty() {
            add_name(&mut names, alloc, name)?;
        }
    }
    Ok(Path { names })
}

fn node(alloc: Global, kind: &str, bytes: &str) -> Result<TreeNode, RowError> {
    if kind == "dir" {
        return Ok(TreeNode::Directory);
    }
    Ok(TreeNode::File(data(alloc, bytes)?))
}

// The entry of a line.
fn entry(alloc: Global, line: &str) -> Result<TreeEntry, RowError> {
    let mut words = line.split(' ');
    let place = words.next().unwrap_or("");
    let kind = words.next().unwrap_or("");
    let _length = words.next();
    let node = node(alloc, kind, words.next().unwrap_or(""))?;
    let path = path(alloc, place)?;
    Ok(TreeEntry { path, node })
}

/// The tree of a text, as `printed_lines` gives it and as `tree` puts it.
pub fn read_tree(alloc: Global, text: &str) -> Result<Tree, RowError> {
    let mut entries = Vec::new(alloc);
    for line in text.lines() {
        entries.push(entry(alloc, line)?)?;
    }
    Ok(Tree { entries })
}
