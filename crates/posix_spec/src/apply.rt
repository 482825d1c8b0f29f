//! The plain program: a state from a tree, the meaning of a call, and the tree of a state.
ghost use Rattle.std.specs.Prelude.{◌≡◌, IfOk, OnOk, OnErr};
ghost use Rattle.posix_spec.specs.Tree.{bare, planted, start, tree};
ghost use Rattle.posix_spec.specs.Step.{step};

use crate::state::State;
use posix_tables::entries::is_root;
use posix_tables::nodes::Node;
use posix_tables::open::Tables;
use posix_tables::places::{node_of, tree_entries};
use posix_types::{Call, Mode, Outcome, Shape, Tree, TreeEntry, Who};
use std::alloc::{AllocError, Global};

impl State {
    /// The root alone, and nothing open.
    fn bare(alloc: Global, shape: Shape, mode: Mode) -> Result<State, AllocError>
        ensures { IfOk result (λ s. s ≡ bare shape mode) }
    {
        let mut nodes = Vec::new(alloc);
        nodes.push(Node::Directory)?;
        Ok(State {
            nodes,
            entries: Vec::new(alloc),
            tables: Tables::new(alloc)?,
            shape,
            mode,
        })
    }

    /// Puts an entry of a tree into the state. Once memory ran out the state may be changed in part.
    fn plant(&mut self, entry: &TreeEntry) -> Result<(), AllocError>
        ensures { IfOk result (λ _. self.new ≡ planted self.old entry.now) }
    {
        if is_root(&entry.path) {
            return Ok(());
        }
        let node = node_of(&entry.node)?;
        self.make(&entry.path, node)
    }

    /// The state that a tree begins as: nothing is open, and published lengths are lengths.
    ///
    /// The first entry of the tree is meant to be the root, and each other one to stand below a
    /// directory that comes before it.
    pub fn open(alloc: Global, tree: &Tree, shape: Shape, mode: Mode) -> Result<State, AllocError>
        ensures { IfOk result (λ s. s ≡ start tree.now shape mode) }
    {
        let mut state = State::bare(alloc, shape, mode)?;
        for entry in &tree.entries {
            state.plant(entry)?;
        }
        Ok(state)
    }

    /// Makes a call: the state goes one step on, and the outcome is that of the step. Out of memory
    /// leaves the state as it was.
    pub fn apply(&mut self, who: Who, call: &Call) -> Result<Outcome, AllocError>
        ensures state { OnOk result (self.new ≡ (step self.old who call.now).state) }
        ensures outcome { IfOk result (λ outcome. outcome ≡ (step self.old who call.now).outcome) }
        ensures err { OnErr result (self.new ≡ self.old) }
    {
        match call {
            Call::Mkdir(path) => self.mkdir(path),
            Call::Rmdir(path) => Ok(self.rmdir(path)),
            Call::Unlink(path) => Ok(self.unlink(path)),
            Call::Rename(from, to) => self.rename(from, to),
            Call::Open(handle, path, flags) => self.open_call(who, *handle, path, *flags),
            Call::Close(handle) => Ok(self.close(who, *handle)),
            Call::Dup(old, new) => self.dup(who, *old, *new),
            Call::Read(handle, count) => self.read(who, *handle, *count),
            Call::Pread(handle, place, count) => self.pread(who, *handle, *place, *count),
            Call::Write(handle, data) => self.write(who, *handle, data.as_slice()),
            Call::Pwrite(handle, place, data) => {
                self.pwrite(who, *handle, *place, data.as_slice())
            }
            Call::Seek(handle, whence, by) => Ok(self.seek(who, *handle, *whence, *by)),
            Call::Truncate(handle, length) => self.truncate(who, *handle, *length),
            Call::Fsync(handle) => Ok(self.fsync(who, *handle)),
            Call::Stat(path) => Ok(self.stat(path)),
            Call::List(path) => self.list(path),
        }
    }

    /// All paths in the byte order of their printed text, each with what stands there.
    pub fn tree(&self) -> Result<Tree, AllocError>
        ensures { IfOk result (λ found. found ≡ tree self.now) }
    {
        let entries = tree_entries(*self.nodes.allocator(), &self.nodes, &self.entries)?;
        Ok(Tree { entries })
    }
}
