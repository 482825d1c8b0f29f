//! The state of a file system that the calls see.
ghost use Rattle.std.specs.Prelude.{◌≡◌, ◌==◌, OnErr, OnOk};
ghost use Rattle.posix_tables.specs.Names.{directory_stands, exists_at, file_stands, longest_name, node_at_path, number_at, parent_at, too_long, walk};
ghost use Rattle.posix_spec.specs.State.{alone, made, room, space, swept, unnamed, with_file, with_node, with_published};
ghost use Rattle.posix_tables.specs.NameRows.{no_line, no_node};

use posix_tables::entries::{
    child_of, directory_names, insert_entry, is_named, is_root, is_too_long, last_name,
    remove_entry,
};
use posix_tables::nodes::{DirEntry, File, Node, count_live, is_directory, publish, set_node};
use posix_tables::open::Tables;
use posix_tables::outcomes::no_space;
use posix_tables::room::room;
use posix_tables::walk::{lines_left, lines_taken, walk_down};
use posix_types::{Data, Errno, Mode, Name, Outcome, Path, Shape, What};
use std::alloc::{AllocError, Global};
use std::marker::Model;

/// The longest name, in bytes.
pub const LONGEST_NAME: usize = 48;

/// The state of a file system, as plain lists. Contracts see nodes by their numbers, names in one
/// order, what is open, the shape and the mode.
#[derive(Drop)]
pub struct State {
    pub(crate) nodes: Vec<Node>,
    pub(crate) entries: Vec<DirEntry>,
    pub(crate) tables: Tables,
    pub(crate) shape: Shape,
    pub(crate) mode: Mode,
}

impl Model for State {
    ghost use Rattle.posix_spec.specs.State as moment;

    ghost Value = { moment.State };

    ghost view = { λ s. record { nodes = s.nodes.items; entries = s.entries.items; tables = s.tables; shape = s.shape; mode = s.mode } };
}

impl Clone for State {
    ghost is_clone = { λ a b. b ≡ a };

    fn clone(&self) -> Result<State, AllocError> {
        let nodes = self.nodes.clone()?;
        let entries = self.entries.clone()?;
        let tables = self.tables.clone()?;
        Ok(State {
            nodes,
            entries,
            tables,
            shape: self.shape,
            mode: self.mode,
        })
    }
}

impl State {
    /// The directory of a path, or why there is none.
    #[tactic(auto, unfolding(posix_tables::specs::Names::walk))]
    pub(crate) fn walk(&self, path: &Path) -> Result<usize, Errno>
        ensures { result ≡ walk (space self.now) path.now }
    {
        walk_down(&self.nodes, &self.entries, directory_names(path))
    }

    /// The number of the directory of a path, where there is one.
    pub(crate) fn parent_at(&self, path: &Path) -> usize
        ensures { result ≡ parent_at (space self.now) path.now }
    {
        match self.walk(path) {
            Ok(node) => node,
            Err(_) => 0,
        }
    }

    /// The node at a path.
    #[tactic(auto, unfolding(posix_tables::specs::Names::node_at_path))]
    pub(crate) fn node_at_path(&self, path: &Path) -> Option<usize>
        ensures { result ≡ node_at_path (space self.now) path.now }
    {
        if is_root(path) {
            return Some(0);
        }
        match self.walk(path) {
            Ok(directory) => child_of(&self.entries, directory, last_name(path)),
            Err(_) => None,
        }
    }

    /// The number of the node at a path, where there is one.
    pub(crate) fn number_at(&self, path: &Path) -> usize
        ensures { result ≡ number_at (space self.now) path.now }
    {
        match self.node_at_path(path) {
            Some(node) => node,
            None => 0,
        }
    }

    pub(crate) fn exists_at(&self, path: &Path) -> bool
        ensures { result ≡ exists_at (space self.now) path.now }
    {
        self.node_at_path(path).is_some()
    }

    pub(crate) fn directory_stands(&self, path: &Path) -> bool
        ensures { result ≡ directory_stands (space self.now) path.now }
    {
        match self.node_at_path(path) {
            Some(node) => is_directory(&self.nodes, node),
            None => false,
        }
    }

    pub(crate) fn file_stands(&self, path: &Path) -> bool
        ensures { result ≡ file_stands (space self.now) path.now }
    {
        match self.node_at_path(path) {
            Some(node) => !is_directory(&self.nodes, node),
            None => false,
        }
    }

    pub(crate) fn is_too_long(&self, path: &Path) -> bool
        ensures { result ≡ too_long (longest_name self.now.shape) path.now }
    {
        is_too_long(LONGEST_NAME, path)
    }

    fn nodes_left(&self) -> u64
        ensures { result ≡ (space self.now).nodes_left }
    {
        u64::from(self.shape.nodes).saturating_sub(count_live(&self.nodes) as u64)
    }

    fn lines_left(&self) -> u64
        ensures { result ≡ (space self.now).lines_left }
    {
        lines_left(self.shape.names, &self.entries)
    }

    /// The row that fits where no node is left.
    pub(crate) fn no_node(&self) -> Option<Outcome>
        ensures { result ≡ no_node (space self.now) }
    {
        if self.nodes_left() == 0 {
            no_space(What::Nodes, 1, 0)
        } else {
            None
        }
    }

    /// The row that fits where fewer name lines are left than the last name takes.
    pub(crate) fn no_line(&self, path: &Path) -> Option<Outcome>
        ensures { result ≡ no_line (space self.now) path.now }
    {
        let left = self.lines_left();
        let need = lines_taken(last_name(path));
        if left < need {
            no_space(What::Names, need, left)
        } else {
            None
        }
    }

    /// The data blocks that are left.
    pub(crate) fn room(&self) -> u64
        ensures { result ≡ room self.now }
    {
        room(self.shape.data_blocks, &self.nodes)
    }

    /// Makes a node at a path.
    #[tactic(auto, unfolding(crate::specs::State::made))]
    pub(crate) fn make(&mut self, path: &Path, node: Node) -> Result<(), AllocError>
        ensures ok { OnOk result (self.new ≡ made self.old path.now node) }
        ensures err { OnErr result (self.new ≡ self.old) }
    {
        let parent = self.parent_at(path);
        let child = self.nodes.len();
        let name = Name {
            bytes: Vec::from_slice(*self.nodes.allocator(), last_name(path))?,
        };
        self.nodes.push(node)?;
        let entry = DirEntry {
            parent,
            name,
            child,
        };
        if let Err(refused) = insert_entry(&mut self.entries, entry) {
            self.nodes.truncate(child);
            return Err(refused);
        }
        Ok(())
    }

    /// Takes the name of a path out.
    #[tactic(auto, unfolding(crate::specs::State::unnamed))]
    pub(crate) fn unname(&mut self, path: &Path)
        ensures { self.new ≡ unnamed self.old path.now }
    {
        let parent = self.parent_at(path);
        remove_entry(&mut self.entries, parent, last_name(path));
    }

    /// Puts another node under a number.
    pub(crate) fn set_node(&mut self, number: usize, node: Node)
        ensures { self.new ≡ with_node self.old number node }
    {
        set_node(&mut self.nodes, number, node);
    }

    /// Gives the file with a number these bytes and this published length.
    #[tactic(auto, unfolding(crate::specs::State::with_file))]
    pub(crate) fn set_file(&mut self, number: usize, bytes: Data, published: u64)
        ensures { self.new ≡ with_file self.old number bytes published }
    {
        self.set_node(number, Node::File(File { bytes, published }));
    }

    /// Publishes the length of the file with a number.
    #[tactic(auto, unfolding(crate::specs::State::with_published))]
    pub(crate) fn publish(&mut self, number: usize)
        ensures { self.new ≡ with_published self.old number }
    {
        publish(&mut self.nodes, number);
    }

    /// Lets a file go that has no name and no description.
    #[tactic(auto, unfolding(crate::specs::State::swept))]
    pub(crate) fn sweep(&mut self, number: usize)
        ensures { self.new ≡ swept alone self.old number }
    {
        if !is_named(&self.entries, number) && !self.tables.is_open(number) {
            self.set_node(number, Node::Gone);
        }
    }
}
