//! The sums of a run.
ghost use Rattle.std.specs.Prelude.{◌≡◌, ◌≤◌, ◌*◌, ◌^◌, ◌++◌, IfOk, OnOk, count_by, length, sum_by};
ghost use Rattle.split_cases.specs.Summary.{bytes_of, count_in, is_called, is_error, is_file, is_file_entry, is_refused, is_thread, is_write, size_of, sum_line, summary_text, written_by};

use itoa::Buffer;
use posix_types::{Call, Item, Reply, Tree, TreeEntry, TreeNode, Who};
use std::alloc::{AllocError, Global};

/// Whether a thread called, and not the set-up.
fn is_thread(who: Who) -> bool
    ensures { result ≡ is_thread who }
{
    match who {
        Who::Setup => false,
        Who::Thread(_) => true,
    }
}

/// Whether a reply is an error.
fn is_error(reply: &Reply) -> bool
    ensures { result ≡ is_error reply.now }
{
    match reply {
        Reply::Error(_) => true,
        _ => false,
    }
}

/// Whether a call writes.
fn is_write(call: &Call) -> bool
    ensures { result ≡ is_write call.now }
{
    match call {
        Call::Write(_, _) => true,
        Call::Pwrite(_, _, _) => true,
        _ => false,
    }
}

/// The count that a reply is, or 0.
fn count_in(reply: &Reply) -> u64
    ensures { result ≡ count_in reply.now }
{
    match reply {
        Reply::Count(count) => *count,
        _ => 0,
    }
}

/// What a call of a thread wrote.
fn written_by(item: &Item) -> u64
    ensures { result ≡ written_by item.now }
{
    if is_thread(item.who) && is_write(&item.call) {
        count_in(&item.reply)
    } else {
        0
    }
}

/// How many calls the threads made.
fn called(history: &[Item]) -> u64
    ensures { result ≡ count_by is_called history.now }
{
    let mut sum = 0;
    for item in history {
        if is_thread(item.who) {
            sum += 1;
        }
    }
    sum
}

/// How many of them were refused.
fn refused(history: &[Item]) -> u64
    ensures { result ≡ count_by is_refused history.now }
{
    let mut sum = 0;
    for item in history {
        if is_thread(item.who) && is_error(&item.reply) {
            sum += 1;
        }
    }
    sum
}

/// What their writes wrote.
fn written(history: &[Item]) -> u128
    ensures { result ≡ sum_by written_by history.now }
{
    let mut sum: u128 = 0;
    for item in history {
        sum += u128::from(written_by(item));
    }
    sum
}

/// How many files a tree has.
fn files(entries: &[TreeEntry]) -> u64
    ensures { result ≡ count_by is_file_entry entries.now }
{
    let mut sum = 0;
    for entry in entries {
        if let TreeNode::File(_) = &entry.node {
            sum += 1;
        }
    }
    sum
}

/// How many bytes a file has, and a directory none.
fn size_of(node: &TreeNode) -> u64
    ensures { result ≡ size_of node.now }
{
    match node {
        TreeNode::Directory => 0,
        TreeNode::File(data) => data.len() as u64,
    }
}

/// How many bytes all files have.
fn bytes(entries: &[TreeEntry]) -> u128
    ensures { result ≡ sum_by bytes_of entries.now }
{
    let mut sum: u128 = 0;
    for entry in entries {
        sum += u128::from(size_of(&entry.node));
    }
    sum
}

/// Puts a line of a word and a sum behind a text.
fn put_sum(text: &mut Vec<u8>, word: &str, sum: u128) -> Result<(), AllocError>
    ensures { OnOk result (text.new.items ≡ text.old.items ++ sum_line word.now sum) }
{
    let mut digits = Buffer::new();
    text.extend_from_slice(word.as_bytes())?;
    text.extend_from_slice(digits.format(sum).as_bytes())?;
    text.push(b'\n')?;
    Ok(())
}

/// The summary of a run: how many calls the threads made, how many of them were refused, how many bytes their writes
/// answered, and the files of the tree and their bytes. An error is out of memory, and leaves nothing.
#[tactic(auto, unfolding(crate::specs::Summary::summary_text))]
pub fn summary(alloc: Global, history: &[Item], tree: &Tree) -> Result<Vec<u8>, AllocError>
    ensures { IfOk result (λ text. text.items ≡ summary_text history.now tree.now) }
{
    let mut text = Vec::new(alloc);
    put_sum(&mut text, "calls ", u128::from(called(history)))?;
    put_sum(&mut text, "refused ", u128::from(refused(history)))?;
    put_sum(&mut text, "written ", written(history))?;
    put_sum(&mut text, "files ", u128::from(files(&tree.entries)))?;
    put_sum(&mut text, "bytes ", bytes(&tree.entries))?;
    Ok(text)
}
