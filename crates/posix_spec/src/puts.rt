//! What a call puts into a file, and what tools that judge states look at and set: the nodes, the names,
//! the bytes of a file.
ghost use Rattle.std.specs.Prelude.{◌≡◌, IfOk};
ghost use Rattle.posix_tables.specs.Nodes.{node_at, published_of};
ghost use Rattle.posix_spec.specs.Put.{put_at, put_by};
ghost use Rattle.posix_spec.specs.State.{with_file};

use crate::state::State;
use posix_tables::nodes::{DirEntry, Node, published_at};
use posix_types::{Call, Data, Handle, Who};
use std::alloc::AllocError;
use std::marker::Model;

/// Bytes that stand in the file of a node from a place on, which is counted in bytes.
#[derive(Drop)]
pub struct Put {
    pub node: usize,
    pub place: u64,
    pub bytes: Data,
}

impl Model for Put {
    ghost use Rattle.posix_spec.specs.Put as moment;

    ghost Value = { moment.Put };

    ghost view = { λ put. record { node = put.node; place = put.place; bytes = put.bytes } };
}

impl State {
    /// The nodes by their numbers, from 0.
    pub fn nodes(&self) -> &[Node]
        ensures { result.now ≡ self.now.nodes }
    {
        self.nodes.as_slice()
    }

    /// The names, in their order.
    pub fn entries(&self) -> &[DirEntry]
        ensures { result.now ≡ self.now.entries }
    {
        self.entries.as_slice()
    }

    /// Gives the file with a number other bytes; its published length stays.
    pub fn set_bytes(&mut self, number: usize, bytes: Data)
        ensures { self.new ≡ with_file self.old number bytes
            (published_of (node_at self.old.nodes number)) }
    {
        let published = published_at(&self.nodes, number);
        self.set_file(number, bytes, published);
    }

    fn put_at(
        &self,
        who: Who,
        handle: Handle,
        start: u64,
        data: &Data,
    ) -> Result<Option<Put>, AllocError>
        ensures { IfOk result (λ put. put ≡ put_at self.now who handle start data.now) }
    {
        if self
            .write_rows(who, handle, start, data.as_slice())
            .is_some()
        {
            return Ok(None);
        }
        let node = self.file_number(who, handle);
        let bytes = data.clone()?;
        Ok(Some(Put {
            node,
            place: start,
            bytes,
        }))
    }

    /// What a call puts: nothing, unless it is a write of at least one byte that is accepted.
    #[tactic(auto, unfolding(crate::specs::Put::put_by))]
    pub fn put_by(&self, who: Who, call: &Call) -> Result<Option<Put>, AllocError>
        ensures { IfOk result (λ put. put ≡ put_by self.now who call.now) }
    {
        match call {
            Call::Write(handle, data) => {
                let start = self.write_start(who, *handle);
                self.put_at(who, *handle, start, data)
            }
            Call::Pwrite(handle, place, data) => self.put_at(who, *handle, *place, data),
            _ => Ok(None),
        }
    }
}
