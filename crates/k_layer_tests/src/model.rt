//! A plain model of maps and bytes: which disk block each file block has, which blocks are free, and
//! the bytes of all blocks.
ghost use Rattle.k_map_tests.specs.Calls.{IsFresh};

use block_counts::blocks_for;
use k_map_tests::{MapCall, Put, Reply, block_bytes};
use k_split::{KSplit, Move};
use posix_types::{Room, What};
use std::alloc::{AllocError, Global};
use test_kit::RowError;

// How many blocks the image has.
pub(crate) const BLOCKS: u32 = 64;

// How many file blocks of each inode the model has.
const PLACES: usize = 16;

const RESERVE: u64 = 4;

// How many inodes it has: the root, four staging files and two files.
pub(crate) const INODES: u32 = 7;

// The disk blocks of file blocks.
pub(crate) type Blocks = [Option<u32>; PLACES];

// What an inode has. A map of at most 16 extents has one chain block, and a map of none has none.
#[derive(Clone, Copy)]
pub(crate) struct ModelFile {
    pub(crate) blocks: Blocks,
    pub(crate) chain: Option<u32>,
    pub(crate) size: u64,
    pub(crate) applied: u64,
}

#[derive(Drop)]
pub(crate) struct Model {
    files: [ModelFile; 7],
    free: [bool; 64],
    bytes: Vec<u8>,
}

// Whether the place is one of `count` from `first` on.
fn is_within(place: usize, first: u32, count: u32) -> bool {
    let place = place as u64;
    u64::from(first) <= place && place < u64::from(first) + u64::from(count)
}

// How many of the blocks in a range are holes.
fn hole_count(blocks: &Blocks, first: u32, count: u32) -> u64 {
    let mut holes: u64 = 0;
    for place in 0..PLACES {
        if is_within(place, first, count) && blocks[place].is_none() {
            holes = holes.saturating_add(1);
        }
    }
    holes
}

// Whether some file block has a disk block.
fn has_some(blocks: &Blocks) -> bool {
    for place in 0..PLACES {
        if blocks[place].is_some() {
            return true;
        }
    }
    false
}

// The disk block that a byte of a file stands in.
fn block_of(blocks: &Blocks, at: u64) -> Option<u32> {
    match blocks.get((at / 4096) as usize) {
        Some(block) => *block,
        None => None,
    }
}

// Moves blocks from the map of a staging file into that of a file.
fn move_blocks(asked: &Move, file: &mut Blocks, staging: &mut Blocks) {
    for k in 0..asked.count {
        let from = u64::from(asked.staging_block) + u64::from(k);
        let to = u64::from(asked.file_block) + u64::from(k);
        if let (Some(block), Some(place)) = (
            staging.get_mut(from as usize),
            file.get_mut(to as usize),
        ) {
            *place = block.take();
        }
    }
}

impl Model {
    // An image of which no inode has a block. The first eight blocks are no data blocks.
    pub(crate) fn new(alloc: Global) -> Result<Model, AllocError> {
        let file = ModelFile {
            blocks: [None; PLACES],
            chain: None,
            size: 0,
            applied: 0,
        };
        let mut free = [true; 64];
        for block in 0..8 {
            free[block] = false;
        }
        Ok(Model {
            files: [file; 7],
            free,
            bytes: vec![in alloc; 0; 4096 * BLOCKS as usize]?,
        })
    }

    // The bytes of a block.
    pub(crate) fn block(&self, block: u32) -> Option<&[u8]> {
        let at = 4096 * block as usize;
        if self.bytes.len() < at + 4096 {
            return None;
        }
        Some(&self.bytes[at..at + 4096])
    }

    pub(crate) fn free_blocks(&self) -> u64 {
        let mut count: u64 = 0;
        for block in 0..64 {
            if self.free[block] {
                count = count.saturating_add(1);
            }
        }
        count
    }

    pub(crate) fn file(&self, ino: u32) -> Option<&ModelFile> {
        self.files.get(ino as usize)
    }

    // Sets the length of a file, and the order of its last entry.
    fn set_line(&mut self, ino: u32, size: u64, applied: u64) {
        if let Some(file) = self.files.get_mut(ino as usize) {
            file.size = size;
            file.applied = applied;
        }
    }

    // The map of an inode.
    fn blocks(&self, ino: u32) -> Blocks {
        match self.file(ino) {
            Some(file) => file.blocks,
            None => [None; PLACES],
        }
    }

    // The order of the last entry of an inode.
    fn applied(&self, ino: u32) -> u64 {
        match self.file(ino) {
            Some(file) => file.applied,
            None => 0,
        }
    }

    // Takes the lowest free block.
    fn take_one(&mut self) -> Option<u32> {
        for block in 0..BLOCKS {
            if self.free[block as usize] {
                self.free[block as usize] = false;
                return Some(block);
            }
        }
        None
    }

    // Frees a block.
    fn free_one(&mut self, block: Option<u32>) {
        if let Some(block) = block {
            if block < BLOCKS {
                self.free[block as usize] = true;
            }
        }
    }

    fn set_byte(&mut self, block: u32, at: u64, byte: u8) {
        let place = 4096 * u64::from(block) + at % 4096;
        if let Some(old) = self.bytes.get_mut(place as usize) {
            *old = byte;
        }
    }

    // Puts the same byte at each place of a range of a file that has a disk block.
    fn put(&mut self, blocks: &Blocks, at: u64, count: u64, byte: u8) {
        for k in 0..count {
            let place = at.saturating_add(k);
            if let Some(block) = block_of(blocks, place) {
                self.set_byte(block, place, byte);
            }
        }
    }

    // Gives an inode a map. Its chain takes the lowest free block; the old chain, which is answered, is still to be given back.
    fn switch(&mut self, ino: u32, blocks: &Blocks) -> Option<u32> {
        let chain = if has_some(blocks) {
            self.take_one()
        } else {
            None
        };
        let file = self.files.get_mut(ino as usize)?;
        let old = file.chain;
        file.blocks = *blocks;
        file.chain = chain;
        old
    }

    // Gives an inode a map, and gives the old chain back.
    fn change(&mut self, ino: u32, blocks: &Blocks) {
        let chain = self.switch(ino, blocks);
        self.free_one(chain);
    }

    // Gives the holes of a range the lowest free blocks.
    fn fill_places(&mut self, blocks: &mut Blocks, first: u32, count: u32) {
        for place in 0..PLACES {
            if is_within(place, first, count) && blocks[place].is_none() {
                blocks[place] = self.take_one();
            }
        }
    }

    // Fills the holes of a range, for which there is room.
    fn fill_holes(&mut self, ino: u32, first: u32, count: u32) {
        let before = self.blocks(ino);
        let mut after = before;
        self.fill_places(&mut after, first, count);
        self.zero_new(&before, &after);
        self.change(ino, &after);
    }

    fn fill(&mut self, ino: u32, first: u32, count: u32) -> Reply {
        let holes = hole_count(&self.blocks(ino), first, count);
        let (need, room) = (holes.saturating_add(RESERVE - 2), self.free_blocks());
        if holes > 0 && room < need {
            return Reply::Room(Room {
                what: What::Blocks,
                need,
                room,
            });
        }
        if holes > 0 {
            self.fill_holes(ino, first, count);
        }
        Reply::Done
    }

    // Zeroes the disk blocks of what was a hole.
    fn zero_new(&mut self, before: &Blocks, after: &Blocks) {
        for place in 0..PLACES {
            if let (None, Some(block)) = (before[place], after[place]) {
                self.set_block(block, &[0; 4096]);
            }
        }
    }

    // Gives an inode a map that has none but blocks of its own, and frees those that it leaves.
    fn cut(&mut self, ino: u32, before: &Blocks, after: &Blocks) {
        if *before != *after {
            self.change(ino, after);
            self.free_gone(before, after);
        }
    }

    fn size(&mut self, ino: u32, size: u32) {
        let before = self.blocks(ino);
        let mut after = before;
        for place in 0..PLACES {
            if blocks_for(u64::from(size)) <= place as u64 {
                after[place] = None;
            }
        }
        self.cut(ino, &before, &after);
        self.set_line(ino, u64::from(size), self.applied(ino));
    }

    // Frees the disk blocks of the places that have another one, or none.
    fn free_gone(&mut self, before: &Blocks, after: &Blocks) {
        for place in 0..PLACES {
            if before[place] != after[place] {
                self.free_one(before[place]);
            }
        }
    }

    // What the new blocks read is not said: they read what the image has there.
    fn take(&mut self, k: &KSplit, staging: u32, count: u32) -> Result<(), RowError>
        requires { IsFresh k.now }
    {
        let mut blocks = [None; PLACES];
        self.fill_places(&mut blocks, 0, count);
        self.change(staging, &blocks);
        self.copy_blocks(&blocks, k)
    }

    fn copy_blocks(&mut self, blocks: &Blocks, k: &KSplit) -> Result<(), RowError>
        requires { IsFresh k.now }
    {
        for place in 0..PLACES {
            if let Some(block) = blocks[place] {
                let bytes = block_bytes(k, block)?;
                self.set_block(block, &bytes);
            }
        }
        Ok(())
    }

    fn set_block(&mut self, block: u32, bytes: &[u8; 4096]) {
        for place in 0..4096u64 {
            self.set_byte(block, place, bytes[place as usize]);
        }
    }

    fn give(&mut self, staging: u32) {
        let before = self.blocks(staging);
        self.cut(staging, &before, &[None; PLACES]);
    }

    fn relink(&mut self, asked: &Move) {
        let before = self.blocks(asked.ino);
        let (mut file, mut staging) = (before, self.blocks(asked.staging));
        move_blocks(asked, &mut file, &mut staging);
        let file_chain = self.switch(asked.ino, &file);
        let staging_chain = self.switch(asked.staging, &staging);
        self.free_one(file_chain);
        self.free_one(staging_chain);
        self.free_gone(&before, &file);
        self.set_line(asked.ino, asked.size, asked.applied);
    }

    fn write(&mut self, ino: u32, at: u64, count: u32, byte: u8) {
        let blocks = self.blocks(ino);
        self.put(&blocks, at, u64::from(count), byte);
    }

    fn stage(&mut self, staging: u32, block: u32, put: Put) {
        let at = 4096 * u64::from(block) + u64::from(put.at);
        self.write(staging, at, put.count, put.byte);
    }

    // Makes a call that may be made, and that K-Split made.
    pub(crate) fn apply(&mut self, k: &KSplit, call: &MapCall) -> Result<Reply, RowError>
        requires { IsFresh k.now }
    {
        match *call {
            MapCall::Size { ino, size } => self.size(ino, size),
            MapCall::Fill { ino, first, count } => return Ok(self.fill(ino, first, count)),
            MapCall::Take { staging, count } => self.take(k, staging, count)?,
            MapCall::Give { staging } => self.give(staging),
            MapCall::Relink(asked) => self.relink(&asked),
            MapCall::Write { ino, bytes } => {
                self.write(ino, u64::from(bytes.at), bytes.count, bytes.byte)
            }
            MapCall::Stage {
                staging,
                block,
                bytes,
            } => self.stage(staging, block, bytes),
            MapCall::Clean { ino, from } => {
                self.write(ino, u64::from(from), 4096 - from % 4096, 0)
            }
        }
        Ok(Reply::Done)
    }
}
