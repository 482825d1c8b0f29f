//! The calls that take a path: the rows of each, and what its last row does.
ghost use Rattle.std.specs.Prelude.{◌≡◌, ◌+◌, ◌&&◌, ◌==◌, false, IfNone, IfOk, OnErr, OnOk, if◌then◌else◌, length, nat_lt};
ghost use Rattle.posix_tables.specs.Open.{is_full};
ghost use Rattle.posix_tables.specs.Nodes.{node_at};
ghost use Rattle.posix_tables.specs.Names.{directory_stands, exists_at, has_entries, height, number_at};
ghost use Rattle.posix_spec.specs.Step.{Gives, list_done, mkdir_done, open_done, opening, opening_number, rename_done, renamed, rmdir_done, stat_done, stat_of, unlink_done};
ghost use Rattle.posix_spec.specs.State.{alone, space, swept, with_node};
ghost use Rattle.posix_tables.specs.Outcomes.{first};
ghost use Rattle.posix_tables.specs.NameRows.{list_rows, mkdir_rows, open_rows, rename_kind_rows, rename_rows, rmdir_rows, stat_rows, unlink_rows};

use crate::state::State;
use posix_tables::entries::{
    LONGEST_PATH, has_entries, height, insert_entry, is_below, is_root, last_name, names_in,
    remove_entry,
};
use posix_tables::nodes::{DirEntry, File, Node};
use posix_tables::open::Description;
use posix_tables::outcomes::{answer, refused};
use posix_types::{Data, Errno, Flags, Handle, Name, Outcome, Path, Reply, Stat, Who};
use std::alloc::{AllocError, Global};

impl State {
    #[tactic(auto, unfolding(posix_tables::specs::NameRows::mkdir_rows))]
    fn mkdir_rows(&self, path: &Path) -> Option<Outcome>
        ensures { result ≡ first (mkdir_rows (space self.now) path.now) }
    {
        if is_root(path) {
            return refused(Errno::EEXIST);
        }
        if self.is_too_long(path) {
            return refused(Errno::ENAMETOOLONG);
        }
        if let Err(errno) = self.walk(path) {
            return refused(errno);
        }
        if self.exists_at(path) {
            return refused(Errno::EEXIST);
        }
        if let Some(outcome) = self.no_node() {
            return Some(outcome);
        }
        self.no_line(path)
    }

    /// `mkdir`: makes an empty directory.
    #[tactic(auto, unfolding(crate::specs::Step::mkdir_done))]
    pub(crate) fn mkdir(&mut self, path: &Path) -> Result<Outcome, AllocError>
        ensures ok { IfOk result (Gives self.old (mkdir_rows (space self.old) path.now)
            (mkdir_done self.old path.now) self.new) }
        ensures err { OnErr result (self.new ≡ self.old) }
    {
        if let Some(outcome) = self.mkdir_rows(path) {
            return Ok(outcome);
        }
        self.make(path, Node::Directory)?;
        Ok(answer(Reply::Ok))
    }

    #[tactic(auto, unfolding(posix_tables::specs::NameRows::rmdir_rows))]
    fn rmdir_rows(&self, path: &Path) -> Option<Outcome>
        ensures { result ≡ first (rmdir_rows (space self.now) path.now) }
    {
        if is_root(path) {
            return refused(Errno::EBUSY);
        }
        if self.is_too_long(path) {
            return refused(Errno::ENAMETOOLONG);
        }
        if let Err(errno) = self.walk(path) {
            return refused(errno);
        }
        if !self.exists_at(path) {
            return refused(Errno::ENOENT);
        }
        if self.file_stands(path) {
            return refused(Errno::ENOTDIR);
        }
        if has_entries(&self.entries, self.number_at(path)) {
            return refused(Errno::ENOTEMPTY);
        }
        None
    }

    /// `rmdir`: removes an empty directory.
    #[tactic(auto, unfolding(crate::specs::Step::rmdir_done))]
    pub(crate) fn rmdir(&mut self, path: &Path) -> Outcome
        ensures { Gives self.old (rmdir_rows (space self.old) path.now)
            (rmdir_done self.old path.now) self.new result }
    {
        if let Some(outcome) = self.rmdir_rows(path) {
            return outcome;
        }
        let number = self.number_at(path);
        self.unname(path);
        self.set_node(number, Node::Gone);
        answer(Reply::Ok)
    }

    #[tactic(auto, unfolding(posix_tables::specs::NameRows::unlink_rows))]
    fn unlink_rows(&self, path: &Path) -> Option<Outcome>
        ensures { result ≡ first (unlink_rows (space self.now) path.now) }
    {
        if is_root(path) {
            return refused(Errno::EPERM);
        }
        if self.is_too_long(path) {
            return refused(Errno::ENAMETOOLONG);
        }
        if let Err(errno) = self.walk(path) {
            return refused(errno);
        }
        if !self.exists_at(path) {
            return refused(Errno::ENOENT);
        }
        if self.directory_stands(path) {
            return refused(Errno::EPERM);
        }
        None
    }

    /// `unlink`: removes the name of a file, which stays while a description has it.
    #[tactic(auto, unfolding(crate::specs::Step::unlink_done))]
    pub(crate) fn unlink(&mut self, path: &Path) -> Outcome
        ensures { Gives self.old (unlink_rows (space self.old) path.now)
            (unlink_done alone self.old path.now) self.new result }
    {
        if let Some(outcome) = self.unlink_rows(path) {
            return outcome;
        }
        let number = self.number_at(path);
        self.unname(path);
        self.sweep(number);
        answer(Reply::Ok)
    }

    /// Whether a directory with entries stands at a path.
    fn full_directory_stands(&self, path: &Path) -> bool
        ensures { result ≡ directory_stands (space self.now) path.now
            && has_entries self.now.entries (number_at (space self.now) path.now) }
    {
        self.directory_stands(path) && has_entries(&self.entries, self.number_at(path))
    }

    /// Whether a path below the target would have too many names, if the source's node moved there.
    fn is_too_deep(&self, from: &Path, to: &Path) -> bool
        ensures { result ≡ nat_lt 16 (length to.now
            + height self.now.entries 16 (number_at (space self.now) from.now)) }
    {
        let below = height(&self.entries, LONGEST_PATH, self.number_at(from));
        to.names.len() > LONGEST_PATH || LONGEST_PATH - to.names.len() < below
    }

    #[tactic(auto, unfolding(posix_tables::specs::NameRows::rename_kind_rows))]
    fn rename_kind_rows(&self, from: &Path, to: &Path) -> Option<Outcome>
        ensures { result ≡ first (rename_kind_rows (space self.now) from.now to.now) }
    {
        if self.directory_stands(from) {
            if is_below(to, from) {
                return refused(Errno::EINVAL);
            }
            if self.file_stands(to) {
                return refused(Errno::ENOTDIR);
            }
            if self.full_directory_stands(to) {
                return refused(Errno::ENOTEMPTY);
            }
            if self.is_too_deep(from, to) {
                return refused(Errno::ENAMETOOLONG);
            }
        }
        if self.file_stands(from) && self.directory_stands(to) {
            return refused(Errno::EISDIR);
        }
        None
    }

    /// Whether the same node stands at both paths.
    fn same_node_stands(&self, from: &Path, to: &Path) -> bool
        ensures { result ≡ exists_at (space self.now) to.now
            && (number_at (space self.now) from.now == number_at (space self.now) to.now) }
    {
        self.exists_at(to) && self.number_at(from) == self.number_at(to)
    }

    #[tactic(auto, unfolding(posix_tables::specs::NameRows::rename_rows))]
    fn rename_rows(&self, from: &Path, to: &Path) -> Option<Outcome>
        ensures { result ≡ first (rename_rows (space self.now) from.now to.now) }
    {
        if is_root(from) || is_root(to) {
            return refused(Errno::EBUSY);
        }
        if self.is_too_long(from) {
            return refused(Errno::ENAMETOOLONG);
        }
        if self.is_too_long(to) {
            return refused(Errno::ENAMETOOLONG);
        }
        if let Err(errno) = self.walk(from) {
            return refused(errno);
        }
        if !self.exists_at(from) {
            return refused(Errno::ENOENT);
        }
        if let Err(errno) = self.walk(to) {
            return refused(errno);
        }
        if self.same_node_stands(from, to) {
            return Some(answer(Reply::Ok));
        }
        self.rename_kind_rows(from, to)
    }

    /// Takes the entries of both paths out, and lets the target lead to the source's node. It works on
    /// a copy of the names, so that nothing is changed where memory runs out.
    #[tactic(auto, unfolding(crate::specs::Step::renamed, crate::specs::State::unnamed))]
    fn move_name(&mut self, from: &Path, to: &Path) -> Result<(), AllocError>
        ensures ok { OnOk result (self.new ≡ renamed self.old from.now to.now) }
        ensures err { OnErr result (self.new ≡ self.old) }
    {
        let parent = self.parent_at(to);
        let child = self.number_at(from);
        let name = Name {
            bytes: Vec::from_slice(*self.nodes.allocator(), last_name(to))?,
        };
        let mut entries = self.entries.clone()?;
        remove_entry(&mut entries, self.parent_at(from), last_name(from));
        remove_entry(&mut entries, parent, last_name(to));
        insert_entry(
            &mut entries,
            DirEntry {
                parent,
                name,
                child,
            },
        )?;
        self.entries = entries;
        Ok(())
    }

    /// Lets a node go that lost its name: a directory, or a file that has no other name and no
    /// description.
    fn leave(&mut self, number: usize, directory: bool, file: bool)
        ensures { self.new ≡ (if directory then with_node self.old number Node.Gone
            else if file then swept alone self.old number else self.old) }
    {
        if directory {
            self.set_node(number, Node::Gone);
        } else if file {
            self.sweep(number);
        }
    }

    /// `rename`: gives the node of a path another path, in place of what stood there.
    #[tactic(auto, unfolding(crate::specs::Step::rename_done))]
    pub(crate) fn rename(&mut self, from: &Path, to: &Path) -> Result<Outcome, AllocError>
        ensures ok { IfOk result (Gives self.old (rename_rows (space self.old) from.now to.now)
            (rename_done alone self.old from.now to.now) self.new) }
        ensures err { OnErr result (self.new ≡ self.old) }
    {
        if let Some(outcome) = self.rename_rows(from, to) {
            return Ok(outcome);
        }
        let number = self.number_at(to);
        let directory = self.directory_stands(to);
        let file = self.file_stands(to);
        self.move_name(from, to)?;
        self.leave(number, directory, file);
        Ok(answer(Reply::Ok))
    }

    #[tactic(auto, unfolding(posix_tables::specs::NameRows::open_rows))]
    fn open_rows(&self, path: &Path, flags: Flags) -> Option<Outcome>
        ensures value { result ≡
            first (open_rows (space self.now) (is_full self.now.tables) false path.now flags) }
        ensures free { IfNone result (is_full self.now.tables ≡ false) }
    {
        if self.is_too_long(path) {
            return refused(Errno::ENAMETOOLONG);
        }
        if let Err(errno) = self.walk(path) {
            return refused(errno);
        }
        let exists = self.exists_at(path);
        if exists && flags.create && flags.exclusive {
            return refused(Errno::EEXIST);
        }
        if self.directory_stands(path) {
            return refused(Errno::EISDIR);
        }
        if !exists && !flags.create {
            return refused(Errno::ENOENT);
        }
        if self.tables.is_full() {
            return refused(Errno::EMFILE);
        }
        if exists {
            return None;
        }
        if let Some(outcome) = self.no_node() {
            return Some(outcome);
        }
        self.no_line(path)
    }

    /// The number of the file that is opened at a path: a new one where it is missing.
    fn opening_number(&self, path: &Path) -> usize
        ensures { result ≡ opening_number self.now path.now }
    {
        match self.node_at_path(path) {
            Some(number) => number,
            None => self.nodes.len(),
        }
    }

    /// Makes the file at a path where it is missing, and cuts it where `truncate` says so.
    #[tactic(auto, unfolding(crate::specs::Step::opening))]
    fn open_file(&mut self, path: &Path, truncate: bool) -> Result<(), AllocError>
        ensures ok { OnOk result (self.new ≡ opening self.old path.now truncate) }
        ensures err { OnErr result (self.new ≡ self.old) }
    {
        let number = self.number_at(path);
        let bytes = Data::of(Vec::new(*self.nodes.allocator()))?;
        let file = Node::File(File {
            bytes,
            published: 0,
        });
        if !self.exists_at(path) {
            self.make(path, file)
        } else if truncate {
            self.set_node(number, file);
            Ok(())
        } else {
            Ok(())
        }
    }

    /// `open`: opens the file at a path with the lowest free descriptor, at offset 0.
    #[tactic(auto, unfolding(crate::specs::Step::open_done))]
    pub(crate) fn open_call(
        &mut self,
        who: Who,
        handle: Handle,
        path: &Path,
        flags: Flags,
    ) -> Result<Outcome, AllocError>
        ensures ok { IfOk result (Gives self.old
            (open_rows (space self.old) (is_full self.old.tables) false path.now flags)
            (open_done self.old who handle path.now flags) self.new) }
        ensures err { OnErr result (self.new ≡ self.old) }
    {
        if let Some(outcome) = self.open_rows(path, flags) {
            return Ok(outcome);
        }
        let descriptor = self.tables.next_descriptor() as u32;
        let node = self.opening_number(path);
        let mut tables = self.tables.clone()?;
        tables.open(
            who,
            handle,
            Description {
                node,
                offset: 0,
                flags,
            },
        )?;
        self.open_file(path, flags.truncate)?;
        self.tables = tables;
        Ok(answer(Reply::Fd(descriptor)))
    }

    #[tactic(auto, unfolding(posix_tables::specs::NameRows::stat_rows))]
    fn stat_rows(&self, path: &Path) -> Option<Outcome>
        ensures { result ≡ first (stat_rows (space self.now) path.now) }
    {
        if self.is_too_long(path) {
            return refused(Errno::ENAMETOOLONG);
        }
        if let Err(errno) = self.walk(path) {
            return refused(errno);
        }
        if !self.exists_at(path) {
            return refused(Errno::ENOENT);
        }
        None
    }

    /// `stat`: says what stands at a path.
    #[tactic(auto, unfolding(crate::specs::Step::stat_done))]
    pub(crate) fn stat(&self, path: &Path) -> Outcome
        ensures { Gives self.now (stat_rows (space self.now) path.now)
            (stat_done self.now path.now) self.now result }
    {
        match self.stat_rows(path) {
            Some(outcome) => outcome,
            None => answer(Reply::Stat(stat_at(&self.nodes, self.number_at(path)))),
        }
    }

    #[tactic(auto, unfolding(posix_tables::specs::NameRows::list_rows))]
    fn list_rows(&self, path: &Path) -> Option<Outcome>
        ensures { result ≡ first (list_rows (space self.now) path.now) }
    {
        if self.is_too_long(path) {
            return refused(Errno::ENAMETOOLONG);
        }
        if let Err(errno) = self.walk(path) {
            return refused(errno);
        }
        if !self.exists_at(path) {
            return refused(Errno::ENOENT);
        }
        if self.file_stands(path) {
            return refused(Errno::ENOTDIR);
        }
        None
    }

    /// `list`: answers the names in a directory.
    #[tactic(auto, unfolding(crate::specs::Step::list_done))]
    pub(crate) fn list(&self, path: &Path) -> Result<Outcome, AllocError>
        ensures { IfOk result (Gives self.now (list_rows (space self.now) path.now)
            (list_done self.now path.now) self.now) }
    {
        if let Some(outcome) = self.list_rows(path) {
            return Ok(outcome);
        }
        let names = names_in(*self.nodes.allocator(), &self.entries, self.number_at(path))?;
        Ok(answer(Reply::Names(names)))
    }
}

/// What `stat` says of a node.
fn stat_at(nodes: &[Node], number: usize) -> Stat
    ensures { result ≡ stat_of (node_at nodes.now number) }
{
    if number >= nodes.len() {
        return Stat::Directory;
    }
    match &nodes[number] {
        Node::Gone => Stat::Directory,
        Node::Directory => Stat::Directory,
        Node::File(file) => Stat::File(file.bytes.len() as u64),
    }
}
