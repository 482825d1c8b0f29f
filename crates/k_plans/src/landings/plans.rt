//! One line of a plan: an inode, a name, or the log base.
ghost use Rattle.std.specs.Prelude.{◌≡◌, ◌+◌, ◌^◌, ◌<◌, ◌≤◌, ℕ, List, length, true, Some, None};
ghost use Rattle.k_inodes.specs.layout_model.Fresh.{state_bytes};
ghost use Rattle.k_inodes.specs.layout_model.Lines.{encode_inode, encode_name, is_inode, is_name_row};
ghost use Rattle.k_inodes.specs.layout_model.Fields.{zeros};
ghost use Rattle.k_inodes.specs.layout_model.Places.{state_line, inode_line, name_line};
ghost use Rattle.volume_change_laws.specs.k_split_model.image_model.Reading.{inode_set, node_set, row_set, base_set};
ghost use Rattle.volume_change_laws.specs.k_split_model.image_model.Volume.{Volume, inode as inode_of};
ghost use Rattle.volume_change_laws.specs.k_split_model.extent_model.declared.extent_words.Extent.{Extent};
ghost use Rattle.k_journal.specs.Batch.{with_line_set};
ghost use Rattle.k_plans.specs.LandingsPlans.{NewChain, Turns, IsMapFrom};

use image_layout::put_u64;
use k_inodes::{Inode, encode_inode};
use k_journal::{Batch, Geometry};
use k_names::{NameLine, encode_name};

/// Plans an inode, with the map that it has, with none, or with a new one (`turns`); with the map
/// that it has, no other part of the volume changes (`node`). `ino` is from 0 to the number of
/// inode lines less 1. There is room for one more line: a batch has at most 128.
pub fn put_inode(batch: &mut Batch, geometry: &Geometry, ino: u32, inode: &Inode)
    requires room { length batch.old < 128 }
    requires ino { ino < geometry.now.inodes }
    requires fields { is_inode inode.now ≡ true }
    ensures some { 0 < length batch.new }
    ensures count { length batch.new ≤ length batch.old + 1 }
    ensures entries { batch.new
        ≡ with_line_set batch.old (inode_line ino) (encode_inode inode.now) }
    ensures turns { (news : List NewChain) (v w : Volume) (blocks : List ℕ) (es : List Extent)
        → IsMapFrom news w ino inode.now blocks es → Turns geometry.now news v w batch.old
        → Turns geometry.now news v (inode_set ino inode.now blocks es w) batch.new }
    ensures node { (news : List NewChain) (v w : Volume) → inode.now.root ≡ (inode_of w ino).root
        → inode.now.extents ≡ (inode_of w ino).extents → Turns geometry.now news v w batch.old
        → Turns geometry.now news v (node_set ino inode.now w) batch.new }
{
    let bytes = encode_inode(inode);
    batch.put_line(geometry.inode_line(ino), bytes);
}

/// Plans a name line: `line` is from 0 to the number of name lines less 1. There is room for one
/// more line: a batch has at most 128.
pub fn put_name(batch: &mut Batch, geometry: &Geometry, line: u32, name: &NameLine)
    requires room { length batch.old < 128 }
    requires line { line < geometry.now.names }
    requires fields { is_name_row name.now ≡ true }
    ensures some { 0 < length batch.new }
    ensures count { length batch.new ≤ length batch.old + 1 }
    ensures entries { batch.new
        ≡ with_line_set batch.old (name_line geometry.now line) (encode_name name.now) }
    ensures turns { (news : List NewChain) (v w : Volume) → Turns geometry.now news v w batch.old
        → Turns geometry.now news v (row_set line (Some name.now) w) batch.new }
{
    let bytes = encode_name(name);
    batch.put_line(geometry.name_line(line), bytes);
}

/// Plans a name line without a name: `line` is from 0 to the number of name lines less 1. There is
/// room for one more line: a batch has at most 128.
pub fn clear_name(batch: &mut Batch, geometry: &Geometry, line: u32)
    requires room { length batch.old < 128 }
    requires line { line < geometry.now.names }
    ensures some { 0 < length batch.new }
    ensures count { length batch.new ≤ length batch.old + 1 }
    ensures entries { batch.new
        ≡ with_line_set batch.old (name_line geometry.now line) (zeros 64) }
    ensures turns { (news : List NewChain) (v w : Volume) → Turns geometry.now news v w batch.old
        → Turns geometry.now news v (row_set line None w) batch.new }
{
    batch.put_line(geometry.name_line(line), [0; 64]);
}

// The line of a log base.
fn state_bytes(base: u64) -> [u8; 64]
    ensures { result ≡ state_bytes base }
{
    let mut bytes = [0; 64];
    put_u64(&mut bytes, 0, base);
    bytes
}

/// Plans the log base, from 1 to 2^63: the sequence number of the log's slot 0 from now on, so that
/// entries of earlier laps are valid no more. There is room for one more line: a batch has at most
/// 128.
pub fn put_base(batch: &mut Batch, geometry: &Geometry, base: u64)
    requires room { length batch.old < 128 }
    requires least { 1 ≤ base }
    requires most { base ≤ 2 ^ 63 }
    ensures some { 0 < length batch.new }
    ensures count { length batch.new ≤ length batch.old + 1 }
    ensures entries { batch.new ≡ with_line_set batch.old state_line (state_bytes base) }
    ensures turns { (news : List NewChain) (v w : Volume) → Turns geometry.now news v w batch.old
        → Turns geometry.now news v (base_set base w) batch.new }
{
    let bytes = state_bytes(base);
    batch.put_line(geometry.state_line(), bytes);
}
