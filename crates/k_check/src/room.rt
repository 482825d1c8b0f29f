// What the files hold once recovery has carried out the live entries.
ghost use Rattle.std.specs.Prelude.{◌≡◌, ◌+◌, ◌==◌, ◌<◌, ◌≤◌, ◌^◌, ℕ, length, filter, cond};
ghost use Rattle.block_counts.specs.Counts.{held_by};
ghost use Rattle.check_image.specs.image_model.Content.{size_of};
ghost use Rattle.check_image.specs.image_model.Live.{latest};
ghost use Rattle.check_image.specs.image_model.Room.{is_named_file, held_after_recovery};
ghost use Rattle.check_image.specs.image_model.Volume.{Volume};
ghost use Rattle.check_image.specs.Readings.{AreNameMarks};

use block_counts::held_by;
use check_image::{Inode, Kind};
use oplog_entry::Draft;

// The entry of greatest order of the inode, the first of those of one order.
fn latest_of(live: &[Draft], ino: u32) -> Option<Draft>
    ensures { result ≡ latest (filter (λ d. d.ino == ino) live.now) }
{
    let mut found: Option<Draft> = None;
    let mut place = live.len();
    while place > 0 {
        place -= 1;
        let draft = live[place];
        if draft.ino == ino {
            found = match found {
                Some(later) if draft.order < later.order => Some(later),
                _ => Some(draft),
            };
        }
    }
    found
}

// The length of a file, in bytes, once recovery has carried out the live entries.
fn size_of(inodes: &[Inode], live: &[Draft], ino: u32) -> u64
    requires { ino < length inodes.now }
    ensures { (v : Volume) → v.inodes ≡ inodes.now → result ≡ size_of v live.now ino }
{
    match latest_of(live, ino) {
        Some(draft) => draft.size,
        None => inodes[ino as usize].size,
    }
}

// What an inode holds then, in blocks, if it is a file with a name.
fn held_by_file(inodes: &[Inode], marks: &[u8], live: &[Draft], ino: u32) -> u64
    requires ino { ino < length inodes.now }
    requires count { length marks.now ≡ length inodes.now }
    ensures held { (v : Volume) → v.inodes ≡ inodes.now → AreNameMarks v marks.now
        → result ≡ cond (is_named_file v ino) (held_by (size_of v live.now ino)) 0 }
    ensures bounded { result ≤ 2 ^ 53 }
{
    if matches!(inodes[ino as usize].kind, Kind::File) && marks[ino as usize] > 0 {
        held_by(size_of(inodes, live, ino))
    } else {
        0
    }
}

// What the files that have a name hold then, in blocks. The marks are those of the names.
pub(crate) fn held_after(inodes: &[Inode], marks: &[u8], live: &[Draft]) -> u64
    requires few { length inodes.now ≤ 1024 }
    requires count { length marks.now ≡ length inodes.now }
    ensures held { (v : Volume) → v.inodes ≡ inodes.now → AreNameMarks v marks.now
        → result ≡ held_after_recovery v live.now }
    ensures bounded { result ≤ 2 ^ 63 }
{
    let mut held = 0;
    for ino in 0..inodes.len() {
        held += held_by_file(inodes, marks, live, ino as u32);
    }
    held
}
