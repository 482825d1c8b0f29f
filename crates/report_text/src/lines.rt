//! The lines of a history and of a tree.
ghost use Rattle.std.specs.Prelude.{◌≡◌, ◌++◌, OnOk, IfOk, codes};
ghost use Rattle.report_text.specs.Texts.{answer_text, entry_text, file_text, history_text, item_text, node_text, place_text, tree_text, who_text};

use crate::bytes::{put_number, put_path, put_str};
use crate::calls::put_call;
use crate::data::put_data;
use crate::replies::{put_reply, put_room};
use posix_types::{Item, Reply, Room, Tree, TreeEntry, TreeNode, Who};
use std::alloc::{AllocError, Global};

/// Puts who made a call.
fn put_who(text: &mut Vec<u8>, who: Who) -> Result<(), AllocError>
    ensures { OnOk result (text.new.items ≡ text.old.items ++ who_text who) }
{
    match who {
        Who::Setup => put_str(text, "s"),
        Who::Thread(number) => put_number(text, "", u64::from(number)),
    }
}

/// Puts who made a call, and the number of the call.
fn put_place(text: &mut Vec<u8>, who: Who, index: u32) -> Result<(), AllocError>
    ensures { OnOk result (text.new.items ≡ text.old.items ++ place_text who index) }
{
    put_who(text, who)?;
    put_number(text, ".", u64::from(index))?;
    put_str(text, " ")
}

/// Puts the end of a line.
fn put_line_end(text: &mut Vec<u8>) -> Result<(), AllocError>
    ensures { OnOk result (text.new.items ≡ text.old.items ++ codes "\n") }
{
    put_str(text, "\n")
}

/// Puts what a call answered, and the end of the line.
fn put_answer(text: &mut Vec<u8>, reply: &Reply, room: Option<Room>) -> Result<(), AllocError>
    ensures { OnOk result (text.new.items ≡ text.old.items ++ answer_text reply.now room) }
{
    put_str(text, " = ")?;
    put_reply(text, reply)?;
    put_room(text, room)?;
    put_line_end(text)
}

/// Puts the line of a call that returned.
#[tactic(auto, unfolding(crate::specs::Texts::item_text))]
fn put_item(text: &mut Vec<u8>, item: &Item) -> Result<(), AllocError>
    ensures { OnOk result (text.new.items ≡ text.old.items ++ item_text item.now) }
{
    put_place(text, item.who, item.index)?;
    put_call(text, &item.call)?;
    put_answer(text, &item.reply, item.room)
}

/// Puts the bytes of a file, where it has any.
fn put_file(text: &mut Vec<u8>, bytes: &[u8]) -> Result<(), AllocError>
    ensures { OnOk result (text.new.items ≡ text.old.items ++ file_text bytes.now) }
{
    if bytes.is_empty() {
        return Ok(());
    }
    text.push(b' ')?;
    put_data(text, bytes)
}

/// Puts what stands at a path.
fn put_node(text: &mut Vec<u8>, node: &TreeNode) -> Result<(), AllocError>
    ensures { OnOk result (text.new.items ≡ text.old.items ++ node_text node.now) }
{
    match node {
        TreeNode::Directory => put_str(text, " dir"),
        TreeNode::File(data) => {
            put_number(text, " file ", data.len() as u64)?;
            put_file(text, data.as_slice())
        }
    }
}

/// Puts the line of a path.
#[tactic(auto, unfolding(crate::specs::Texts::entry_text))]
fn put_entry(text: &mut Vec<u8>, entry: &TreeEntry) -> Result<(), AllocError>
    ensures { OnOk result (text.new.items ≡ text.old.items ++ entry_text entry.now) }
{
    put_path(text, &entry.path)?;
    put_node(text, &entry.node)?;
    put_line_end(text)
}

/// The lines of the paths of a tree.
fn entry_lines(alloc: Global, entries: &[TreeEntry]) -> Result<Vec<u8>, AllocError>
    ensures { IfOk result (λ text. text.items ≡ tree_text entries.now) }
{
    let mut text = Vec::new(alloc);
    for entry in entries {
        put_entry(&mut text, entry)?;
    }
    Ok(text)
}

/// The text of a history: a line for each call that returned, in order. An error is out of memory,
/// and leaves nothing.
pub fn history_text(alloc: Global, history: &[Item]) -> Result<Vec<u8>, AllocError>
    ensures { IfOk result (λ text. text.items ≡ history_text history.now) }
{
    let mut text = Vec::new(alloc);
    for item in history {
        put_item(&mut text, item)?;
    }
    Ok(text)
}

/// The text of a tree: a line for each path, in the tree's order. An error is out of memory, and
/// leaves nothing.
pub fn tree_text(alloc: Global, tree: &Tree) -> Result<Vec<u8>, AllocError>
    ensures { IfOk result (λ text. text.items ≡ tree_text tree.now) }
{
    entry_lines(alloc, &tree.entries)
}
