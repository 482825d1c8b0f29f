//! What stands at a path, and whether an inode has a name.
ghost use Rattle.std.specs.Prelude.{◌≡◌, ◌<◌, ◌↔◌, false, IsTrue, Ok, IfErr, IfOk};
ghost use Rattle.layout_model.specs.Names.{names_of};
ghost use Rattle.k_tables.specs.k_split_model.Spaces.{space_of};
ghost use Rattle.k_split.specs.Looks.{IsFound, IsDirectoryFound, IsLed, IsListed, IsListFault};
ghost use Rattle.posix_tables.specs.Names.{node_at_path, walk};

use crate::faults::KFault;
use crate::state::KSplit;
use k_tables::{LONGEST_NAME, NameTable, child, is_directory, parent_of};
use layout_model::Inode;
use posix_tables::entries::{is_root, is_too_long};
use posix_types::{Errno, Name, Path};
use std::alloc::Global;

// The inode at a path, below its directory.
#[tactic(auto, unfolding(posix_tables::specs::Names::node_at_path))]
fn node_below(inodes: &[Inode], names: &NameTable, path: &Path, parent: u32) -> Option<u32>
    requires { walk (space_of inodes.now names.now) path.now ≡ Ok parent }
    ensures { result ≡ node_at_path (space_of inodes.now names.now) path.now }
{
    if is_root(path) {
        return Some(0);
    }
    child(names, parent, &path.names[path.names.len() - 1])
}

impl KSplit {
    /// The directory in which the last name of a path stands, whether or not that name is there; of
    /// the root, the root itself. A call that takes a path and has rows of its own goes by it: these
    /// two rows come before all that look at what stands at the path.
    ///
    /// # Errors
    ///
    /// ENAMETOOLONG exactly where a name or the path is too long; else ENOENT or ENOTDIR exactly
    /// where a name before the last one is missing or a file, whichever comes first.
    pub fn directory_of(&self, path: &Path) -> Result<u32, Errno>
        ensures { IsLed self.now.volume path.now result }
    {
        if is_too_long(LONGEST_NAME, path) {
            return Err(Errno::ENAMETOOLONG);
        }
        parent_of(self.tables.inodes(), self.tables.names(), path)
    }

    /// The inode at a path.
    ///
    /// # Errors
    ///
    /// ENAMETOOLONG, ENOENT or ENOTDIR exactly where the rows of `stat` say.
    pub fn find(&self, path: &Path) -> Result<u32, Errno>
        ensures { IsFound self.now.volume path.now result }
    {
        match self.directory_of(path) {
            Err(errno) => Err(errno),
            Ok(parent) => {
                match node_below(self.tables.inodes(), self.tables.names(), path, parent) {
                    Some(ino) => Ok(ino),
                    None => Err(Errno::ENOENT),
                }
            }
        }
    }

    // The directory at a path, or why none is there.
    fn directory_at(&self, path: &Path) -> Result<u32, Errno>
        ensures { IsDirectoryFound self.now.volume path.now result }
    {
        match self.find(path) {
            Err(errno) => Err(errno),
            Ok(ino) => {
                if is_directory(self.tables.inodes(), ino) {
                    Ok(ino)
                } else {
                    Err(Errno::ENOTDIR)
                }
            }
        }
    }

    /// The names in the directory at a path, in the order of their bytes. It takes memory for them.
    ///
    /// # Errors
    ///
    /// `Refused` exactly where the rows of `list` say, with ENAMETOOLONG, ENOENT or ENOTDIR;
    /// `NoMemory` only where no row fits; never `Room` or `PowerLost`.
    pub fn list(&self, alloc: Global, path: &Path) -> Result<Vec<Name>, KFault>
        ensures names { IfOk result (λ names. IsListed self.now.volume path.now names.items) }
        ensures refused { IfErr result (IsListFault self.now.volume path.now) }
    {
        match self.directory_at(path) {
            Err(errno) => Err(KFault::Refused(errno)),
            Ok(ino) => match self.tables.names().children(alloc, ino) {
                Ok(names) => Ok(names),
                Err(_) => Err(KFault::NoMemory),
            },
        }
    }

    /// Whether an inode has a name. The root has none.
    pub fn named(&self, ino: u32) -> bool
        ensures { IsTrue result ↔ (0 < names_of self.now.volume.names ino) }
    {
        self.tables.named(ino)
    }
}
