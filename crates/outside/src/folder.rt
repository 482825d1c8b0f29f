//! The steps by which a file is replaced. Each is a call of its own, which gives a fact that no
//! other gives: a body that, over any folder, leaves out a step, or takes it too early or at
//! another name, has no proof.
ghost use Rattle.std.specs.Prelude.{◌≡◌, ◌≢◌, ℕ, List, IfOk, IfErr, OnOk, OnErr, IsErrAnd};
ghost use Rattle.std.specs.IoError.{error_kind};
ghost use Rattle.std.specs.declared.fs.attrs.Metadata.{Metadata};
ghost use Rattle.std.specs.declared.fs.permissions.Permissions.{Permissions};

use std::fs::{Metadata, Permissions};
use std::io;
use std::io::ErrorKind;

/// Files that can be made, written and given a name, each in one step. A new file goes from `New`
/// by `Written`, once it is on the disk, to `Named`, and a step takes it only where it is so far.
pub(crate) trait Folder {
    /// A new file, which is being written.
    type New: Drop;

    /// A new file that is on the disk, and is written no more.
    type Written: Drop;

    /// A new file that has taken the name of another.
    type Named: Drop;

    /// A step has failed.
    ghost has_failed: { Self → Type 0 };

    /// This was found under the name.
    ghost is_found: { List ℕ → Metadata → Type 0 };

    /// Nothing was found under the name.
    ghost is_missing: { List ℕ → Type 0 };

    /// The new file was made, empty, under the name.
    ghost is_made: { List ℕ → Self.New → Type 0 };

    /// The new file has these permissions.
    ghost has_permissions: { Self.New → Permissions → Type 0 };

    /// The new file, which was the first, has taken all of the bytes.
    ghost is_filled: { Self.New → List ℕ → Self.New → Type 0 };

    /// The new file is on the disk as it was.
    ghost is_on_disk: { Self.New → Self.Written → Type 0 };

    /// The file under the first name has the second one in its place.
    ghost is_renamed: { Self.Written → List ℕ → List ℕ → Self.Named → Type 0 };

    /// Once the file had its name, it was asked that this folder is put on the disk.
    ghost is_sync_asked: { Self.Named → List ℕ → Type 0 };

    /// It was asked that the file of this name is removed.
    ghost is_removal_asked: { List ℕ → Type 0 };

    /// What stands under a name. `NotFound` is the answer where nothing does.
    fn metadata(&self, name: &str) -> io::Result<Metadata>
        ensures found { IfOk result (λ found. is_found name.now found) }
        ensures missing { IsErrAnd result (λ e. error_kind e ≡ ErrorKind.NotFound)
            → is_missing name.now }
        ensures failed { IfErr result (λ e. error_kind e ≢ ErrorKind.NotFound
            → has_failed self.now) };

    /// Makes a new file under the name; one that was there is emptied.
    fn create(&self, name: &str) -> io::Result<Self::New>
        ensures made { IfOk result (λ new. is_made name.now new) }
        ensures failed { OnErr result (has_failed self.now) };

    fn set_permissions(&self, new: &Self::New, permissions: Permissions) -> io::Result<()>
        ensures set { OnOk result (has_permissions new.now permissions) }
        ensures failed { OnErr result (has_failed self.now) };

    /// Writes all of the bytes, behind those that the new file has.
    fn fill(&self, new: &mut Self::New, bytes: &[u8]) -> io::Result<()>
        ensures filled { OnOk result (is_filled new.old bytes.now new.new) }
        ensures failed { OnErr result (has_failed self.now) };

    /// Waits until the new file is on the disk.
    fn sync(&self, new: Self::New) -> io::Result<Self::Written>
        ensures on_disk { IfOk result (λ written. is_on_disk new written) }
        ensures failed { OnErr result (has_failed self.now) };

    /// Gives the new file, which is under the first name, the second one, in place of what is there.
    fn rename(&self, written: Self::Written, from: &str, to: &str) -> io::Result<Self::Named>
        ensures renamed { IfOk result (λ named. is_renamed written from.now to.now named) }
        ensures failed { OnErr result (has_failed self.now) };

    /// Waits until a folder is on the disk, with the name that the file has now.
    fn sync_folder(&self, named: &Self::Named, folder: &str) -> io::Result<()>
        ensures { is_sync_asked named.now folder.now };

    /// Removes the file of a name.
    fn remove(&self, name: &str) -> io::Result<()>
        ensures { is_removal_asked name.now };
}
