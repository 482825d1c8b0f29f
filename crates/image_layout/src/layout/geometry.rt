//! The numbers of an image, and the places of its lines and regions.
ghost use Rattle.std.specs.Prelude.{◌≡◌, ◌+◌, ◌<◌, ◌≤◌, ◌↔◌, IsSome, IfSome, nat_le};
ghost use Rattle.layout_model.specs.block_counts.Counts.{reserve_for};
ghost use Rattle.layout_model.specs.PlaceLaws.{AreApart};
ghost use Rattle.layout_model.specs.Places.{Geometry, IsGeometry, blocks_of_lines, data_blocks, first_data, name_block, log_block, nodes, state_line, record_line, inode_line, name_line, log_line};
ghost use Rattle.image_layout.specs.Numbers.{default_numbers, numbered};

use layout_model::reserve_for;
use posix_types::Shape;
use std::marker::Model;

/// The version of the format that is written and read.
pub const VERSION: u32 = 1;

// The first block of the inode lines, behind block 0 and the journal's four blocks.
const INODE_BLOCK: u32 = 5;

// How many data blocks an image has at least.
const LEAST_DATA_BLOCKS: u32 = 32;

/// The numbers of an image, each in its range, at least 32 of its blocks being data blocks.
#[derive(Clone, Copy, Debug, PartialEq, Eq)]
pub struct Geometry {
    /// The version of the format, always 1.
    pub version: u32,
    /// Blocks of 4,096 bytes, 64 to 16,384.
    pub blocks: u32,
    /// Lines of the log, 4 to 1,024.
    pub log: u32,
    /// Inode lines, 16 to 1,024.
    pub inodes: u32,
    /// Name lines, 16 to 4,096.
    pub names: u32,
}

impl Model for Geometry {
    ghost use Rattle.layout_model.specs.Places.{Geometry, IsGeometry};

    ghost Value = { Geometry };

    ghost view = { λ a. record {
      version = a.version;
      blocks = a.blocks;
      log = a.log;
      inodes = a.inodes;
      names = a.names;
    } };

    ghost invariant = { λ a. IsGeometry (record {
      version = a.version;
      blocks = a.blocks;
      log = a.log;
      inodes = a.inodes;
      names = a.names;
    }) };

    ghost inverse = { λ g. record {
      version = g.version;
      blocks = g.blocks;
      log = g.log;
      inodes = g.inodes;
      names = g.names;
    } };
}

// How many blocks so many lines take, rounded up.
fn blocks_of_lines(lines: u32) -> u32
    requires { lines ≤ 4096 }
    ensures { result ≡ blocks_of_lines lines }
{
    lines.div_ceil(64)
}

// Whether the data blocks from `first_data` on are enough.
fn is_room_left(blocks: u32, first_data: u32) -> bool
    requires { first_data ≤ 1024 }
    ensures { result ≡ nat_le (first_data + 32) blocks }
{
    first_data + LEAST_DATA_BLOCKS <= blocks
}

impl Geometry {
    /// The geometry of the default image: 256 blocks, 64 log lines, 64 inode lines, 128 name lines.
    pub fn default_image() -> Geometry
        ensures { result ≡ default_numbers }
    {
        Geometry {
            version: VERSION,
            blocks: 256,
            log: 64,
            inodes: 64,
            names: 128,
        }
    }

    /// The geometry of these numbers of blocks, log lines, inode lines and name lines; None exactly
    /// where one of them is out of its range, or they leave fewer than 32 data blocks.
    pub fn checked(blocks: u32, log: u32, inodes: u32, names: u32) -> Option<Geometry>
        ensures numbers { IfSome result (λ g. g ≡ numbered blocks log inodes names) }
        ensures exact { IsSome result ↔ IsGeometry (numbered blocks log inodes names) }
    {
        let is_in_range = (64..=16_384).contains(&blocks)
            && (4..=1_024).contains(&log)
            && (16..=1_024).contains(&inodes)
            && (16..=4_096).contains(&names);
        if !is_in_range {
            return None;
        }
        let first_data = INODE_BLOCK
            + blocks_of_lines(inodes)
            + blocks_of_lines(names)
            + blocks_of_lines(log);
        if !is_room_left(blocks, first_data) {
            return None;
        }
        Some(Geometry {
            version: VERSION,
            blocks,
            log,
            inodes,
            names,
        })
    }

    /// How many blocks are data blocks, at least 32.
    pub fn data_blocks(&self) -> u32
        ensures number { result ≡ data_blocks self.now }
        ensures least { 32 ≤ result }
        ensures in_range { IsGeometry self.now }
    {
        self.blocks - self.first_data()
    }

    // The first block of the name lines.
    fn name_block(&self) -> u32
        ensures { result ≡ name_block self.now }
    {
        INODE_BLOCK + blocks_of_lines(self.inodes)
    }

    // The first block of the log lines.
    fn log_block(&self) -> u32
        ensures { result ≡ log_block self.now }
    {
        self.name_block() + blocks_of_lines(self.names)
    }

    /// The first data block. The last is that before block `blocks`.
    pub fn first_data(&self) -> u32
        ensures number { result ≡ first_data self.now }
        ensures in_range { IsGeometry self.now }
    {
        self.log_block() + blocks_of_lines(self.log)
    }

    /// How many data blocks no file may hold.
    pub fn reserve(&self) -> u32
        ensures { result ≡ reserve_for (data_blocks self.now) }
    {
        reserve_for(self.data_blocks())
    }

    /// The data blocks, the nodes and the names that the image has room for. The inode lines 1 to 4
    /// are the staging files' and hold no node.
    pub fn shape(&self) -> Shape
        ensures data_blocks { result.data_blocks ≡ data_blocks self.now }
        ensures nodes { result.nodes ≡ nodes self.now }
        ensures names { result.names ≡ self.now.names }
        ensures in_range { IsGeometry self.now }
    {
        Shape {
            data_blocks: self.data_blocks(),
            nodes: self.inodes - 4,
            names: self.names,
        }
    }

    /// The line of the log base.
    pub fn state_line(&self) -> u64
        ensures { result ≡ state_line }
    {
        2
    }

    /// The first line of record `index` of the journal, below 128: its target. Its content is the
    /// line behind.
    pub fn record_line(&self, index: u32) -> u64
        requires { index < 128 }
        ensures { result ≡ record_line index }
    {
        64 + 2 * u64::from(index)
    }

    /// The line of inode `ino`.
    pub fn inode_line(&self, ino: u32) -> u64
        requires { ino < self.now.inodes }
        ensures { result ≡ inode_line ino }
    {
        64 * u64::from(INODE_BLOCK) + u64::from(ino)
    }

    /// The line of name line `line`.
    pub fn name_line(&self, line: u32) -> u64
        requires { line < self.now.names }
        ensures { result ≡ name_line self.now line }
    {
        64 * u64::from(self.name_block()) + u64::from(line)
    }

    /// The line of slot `slot` of the log.
    pub fn log_line(&self, slot: u32) -> u64
        requires { slot < self.now.log }
        ensures { result ≡ log_line self.now slot }
    {
        64 * u64::from(self.log_block()) + u64::from(slot)
    }
}

/// In every image block 0, the journal's records, the inode lines, the name lines, the log lines
/// and the data blocks follow one another, and each line lies in the blocks of its part.
pub fn regions_are_apart()
    ensures { (g : Geometry) → IsGeometry g → AreApart g }
{}
