//! Images that are drawn from a seed, with live entries in their logs, beside the plain meaning of what they contain.
//!
//! An image has 96 blocks, 16 log lines, and three files `/a`, `/b` and `/c`, with two blocks each; the four staging files
//! have six blocks each. Entries stand in any slots, each file's by rising order, with any lengths; one of a generation
//! before is among them. What a file has is said beside them as a list of blocks that entries replace one after another.
use crate::commands::answer;
use crate::entries::{put_entry, put_number};
use outside::{Files, MemFiles};
use posix_spec::{Data, Name, Path, Tree, TreeEntry, TreeNode, root_alone};
use std::alloc::{AllocError, Global};
use test_kit::{Draws, Text, number, put_tree, word};

const INODES: usize = 20_480;

const NAMES: usize = 24_576;

const LOG: usize = 28_672;

// A file as it is to be found: its length, and the disk blocks of its blocks, 0 for none.
#[derive(Drop)]
struct Found {
    size: u64,
    blocks: [u64; 4],
    applied: u64,
}

// An image, and what is to be found in it.
#[derive(Drop)]
struct Forged {
    bytes: Vec<u8>,
    files: [Found; 3],
    // How many of the blocks of each staging file have an entry.
    staged: [u64; 4],
    live: u64,
}

// A node of this kind, and its map: one extent from block 0 on, with a chain block of its own.
fn put_node(bytes: &mut [u8], ino: u64, kind: u64, chain: u64, first: u64, count: u64) {
    let line = INODES.saturating_add((ino as usize).saturating_mul(64));
    put_number(bytes, line, 1, kind);
    put_number(bytes, line.saturating_add(4), 4, ino);
    put_number(bytes, line.saturating_add(24), 4, chain);
    put_number(bytes, line.saturating_add(28), 4, 1);
    let block = (chain as usize).saturating_mul(4096);
    put_number(bytes, block.saturating_add(4), 4, 1);
    put_number(bytes, block.saturating_add(20), 4, first);
    put_number(bytes, block.saturating_add(24), 4, count);
}

// A file with its name, a letter.
fn put_file(bytes: &mut [u8], file: u64) {
    let ino = file.saturating_add(5);
    let (chain, first) = (
        file.saturating_add(36),
        file.saturating_mul(2).saturating_add(39),
    );
    put_node(bytes, ino, 2, chain, first, 2);
    let line = NAMES.saturating_add((file as usize).saturating_mul(64));
    put_number(bytes, line.saturating_add(4), 4, ino);
    put_number(bytes, line.saturating_add(8), 1, 1);
    put_number(bytes, line.saturating_add(16), 1, file.saturating_add(97));
}

// A block is full of a byte.
fn fill_block(bytes: &mut [u8], block: u64, byte: u64) {
    let start = (block as usize).saturating_mul(4096);
    for at in 0..4096_usize {
        put_number(bytes, start.saturating_add(at), 1, byte);
    }
}

// The nodes: the staging files 1 to 4, and the files 5 to 7 with their names. Data blocks are filled.
fn put_nodes(bytes: &mut [u8], draws: &mut Draws) {
    for staging in 1..5_u64 {
        put_node(bytes, staging, 3, 7 + staging, 6 + 6 * staging, 6);
    }
    for file in 0..3_u64 {
        put_file(bytes, file);
    }
    // Blocks 36 to 38 are the files' chain blocks.
    for block in 12..45_u64 {
        if block < 36 || block >= 39 {
            fill_block(bytes, block, draws.wide_below(256));
        }
    }
}

// A file before its entries: its length and the order that is applied are drawn.
fn drawn_file(draws: &mut Draws, first: u64) -> Found {
    Found {
        size: draws.wide_below(8193),
        blocks: [first, first.saturating_add(1), 0, 0],
        applied: draws.wide_below(5),
    }
}

// The lines of the files get their lengths and applied orders.
fn put_files(bytes: &mut [u8], files: &[Found; 3]) {
    for (at, file) in files.iter().enumerate() {
        let line = INODES.saturating_add(at.saturating_add(5).saturating_mul(64));
        put_number(bytes, line.saturating_add(8), 8, file.size);
        put_number(bytes, line.saturating_add(16), 8, file.applied);
    }
}

// The log's base: 1, one that rises, or one above which the log begins anew.
fn drawn_base(draws: &mut Draws) -> u64 {
    match draws.wide_below(3) {
        0 => 1,
        1 => 1000,
        _ => (1 << 62) + 1,
    }
}

// What is drawn of an entry: a file and a staging file, each counted from 0, the first block and how many, and the length.
#[derive(Clone, Copy)]
struct Drawn {
    file: u64,
    staging: u64,
    count: u64,
    block: u64,
    size: u64,
}

fn drawn_entry(draws: &mut Draws) -> Drawn {
    Drawn {
        file: draws.wide_below(3),
        staging: draws.wide_below(4),
        count: draws.wide_below(2).saturating_add(1),
        block: draws.wide_below(3),
        size: draws.wide_below(16_385),
    }
}

impl Drawn {
    // The numbers of its entry, with this sequence number and order, of this generation of its file, from this block of its staging
    // file on.
    fn numbers(&self, sequence: u64, order: u64, generation: u64, from: u64) -> [u64; 10] {
        let staging = self.staging.saturating_add(1);
        [
            sequence,
            order,
            self.file.saturating_add(5),
            generation,
            self.block,
            self.count,
            staging,
            from,
            staging,
            self.size,
        ]
    }
}

impl Found {
    // The file has what an entry says, from this block of a staging file on.
    fn take(&mut self, drawn: &Drawn, from: u64) {
        self.applied = self.applied.saturating_add(1);
        self.size = drawn.size;
        let first = drawn
            .staging
            .saturating_mul(6)
            .saturating_add(12)
            .saturating_add(from);
        for at in 0..drawn.count {
            if let Some(there) = self.blocks.get_mut(drawn.block.saturating_add(at) as usize) {
                *there = first.saturating_add(at);
            }
        }
    }
}

// An entry that is live, with this sequence number, at this place, and what the file has by it; or one of the file's generation
// before.
fn add_entry(forged: &mut Forged, drawn: &Drawn, sequence: u64, place: usize, draws: &mut Draws) {
    let Some(used) = forged.staged.get_mut(drawn.staging as usize) else {
        return;
    };
    let Some(found) = forged.files.get_mut(drawn.file as usize) else {
        return;
    };
    let from = *used;
    let end = from.saturating_add(drawn.count);
    if end > 6 {
        return;
    }
    let is_old = draws.wide_below(5) == 0;
    let generation = drawn.file.saturating_add(if is_old { 4 } else { 5 });
    let order = found.applied.saturating_add(1);
    let numbers = drawn.numbers(sequence, order, generation, from);
    put_entry(&mut forged.bytes, place, &numbers);
    if !is_old {
        *used = end;
        found.take(drawn, from);
        forged.live = forged.live.saturating_add(1);
    }
}

// Entries in about half of the slots, in an order that is drawn: an odd step goes once through all 16 slots.
fn add_entries(forged: &mut Forged, base: u64, draws: &mut Draws) {
    let step = draws.wide_below(8).saturating_mul(2).saturating_add(1);
    let mut slot = draws.wide_below(16);
    for _ in 0..16 {
        if draws.wide_below(2) == 0 {
            let place = LOG.saturating_add((slot as usize).saturating_mul(64));
            let drawn = drawn_entry(draws);
            add_entry(forged, &drawn, base.saturating_add(slot), place, draws);
        }
        slot = slot.saturating_add(step) % 16;
    }
}

// An image over a fresh one, with entries.
fn forge(fresh: Vec<u8>, draws: &mut Draws) -> Forged {
    let mut bytes = fresh;
    put_nodes(&mut bytes, draws);
    let files = [
        drawn_file(draws, 39),
        drawn_file(draws, 41),
        drawn_file(draws, 43),
    ];
    put_files(&mut bytes, &files);
    let base = drawn_base(draws);
    put_number(&mut bytes, 128, 8, base);
    let mut forged = Forged {
        bytes,
        files,
        staged: [0; 4],
        live: 0,
    };
    add_entries(&mut forged, base, draws);
    forged
}

// The byte that is to be found at a place of a file.
fn byte_at(image: &[u8], found: &Found, at: u64) -> u8 {
    let block = found.blocks.get((at / 4096) as usize).copied().unwrap_or(0);
    if block == 0 {
        return 0;
    }
    let place = block.saturating_mul(4096).saturating_add(at % 4096);
    image.get(place as usize).copied().unwrap_or(0)
}

// The bytes that are to be found in a file.
fn bytes_of(alloc: Global, image: &[u8], found: &Found) -> Result<Vec<u8>, AllocError> {
    let mut bytes = Vec::new(alloc);
    for at in 0..found.size {
        bytes.push(byte_at(image, found, at))?;
    }
    Ok(bytes)
}

// The entry of a file whose name is this letter.
fn entry_of(alloc: Global, letter: u8, bytes: Vec<u8>) -> Result<TreeEntry, AllocError> {
    let mut names = Vec::new(alloc);
    names.push(Name {
        bytes: Vec::from_slice(alloc, &[letter])?,
    })?;
    Ok(TreeEntry {
        path: Path { names },
        node: TreeNode::File(Data::of(bytes)?),
    })
}

// Adds the entries of the files that are to be found.
fn add_found(
    alloc: Global,
    entries: &mut Vec<TreeEntry>,
    forged: &Forged,
) -> Result<(), AllocError> {
    let mut letter = b'a';
    for found in &forged.files {
        let bytes = bytes_of(alloc, &forged.bytes, found)?;
        entries.push(entry_of(alloc, letter, bytes)?)?;
        letter = letter.saturating_add(1);
    }
    Ok(())
}

// The tree that is to be found.
fn tree_of(alloc: Global, forged: &Forged) -> Result<Tree, AllocError> {
    let mut tree = root_alone(alloc)?;
    add_found(alloc, &mut tree.entries, forged)?;
    Ok(tree)
}

// Adds its text.
fn put_found(text: &mut Text, alloc: Global, forged: &Forged) {
    match tree_of(alloc, forged) {
        Ok(tree) => put_tree(text, alloc, &tree),
        Err(_) => text.fall_short(),
    }
}

// Whether the image shows a tree, and shows it again after a run of nothing, of which the image is kept.
fn is_shown(alloc: Global, files: &mut MemFiles, tree: &Text) -> bool {
    let _ran = answer(alloc, files, "step forged stat strict keep mounted");
    answer(alloc, files, "tree forged").is_same(tree)
        && answer(alloc, files, "tree mounted").is_same(tree)
}

// Whether a forged image shows what is to be found in it.
fn is_kept(alloc: Global, files: &mut MemFiles, forged: &Forged) -> bool {
    let mut tree = Text::new(alloc);
    put_found(&mut tree, alloc, forged);
    files.replace("forged", &forged.bytes).is_ok() && is_shown(alloc, files, &tree)
}

// How many live entries forged images have, and how many of them show what is to be found in them.
#[derive(Clone, Copy)]
struct Counts {
    live: u64,
    kept: u64,
}

// One more image is forged, and counted.
fn count_one(alloc: Global, files: &mut MemFiles, draws: &mut Draws, counts: &mut Counts) {
    let fresh = files.read(alloc, "fresh").unwrap_or(Vec::new(alloc));
    let forged = forge(fresh, draws);
    counts.live = counts.live.saturating_add(forged.live);
    if is_kept(alloc, files, &forged) {
        counts.kept = counts.kept.saturating_add(1);
    }
}

// So many images from a seed are forged, and counted.
fn counts_of(alloc: Global, files: &mut MemFiles, seed: u64, count: u64) -> Counts {
    let mut draws = Draws::new(seed);
    let mut counts = Counts { live: 0, kept: 0 };
    for _ in 0..count {
        count_one(alloc, files, &mut draws, &mut counts);
    }
    counts
}

// A fresh image, and a script that does nothing.
fn put_fresh(alloc: Global, files: &mut MemFiles) {
    let _is_there = files.replace("stat", b"stat /a\n");
    let _made = answer(alloc, files, "mkfs fresh 96 16 16 16");
}

// Adds how many live entries so many images have, and how many of them are kept.
fn put_counts(text: &mut Text, count: u64, counts: Counts) {
    text.put_number(count);
    text.put(" forged images with ");
    text.put_number(counts.live);
    text.put(" live entries: ");
    text.put_number(counts.kept);
    text.put(" are kept\n");
}

// `SEED COUNT`: so many images from this seed; how many live entries they have, and how many of them show, before and after a
// mount, what they contain.
pub(crate) fn put_forged(text: &mut Text, alloc: Global, files: &mut MemFiles, words: &str) {
    match (number(word(words, 0)), number(word(words, 1))) {
        (Ok(seed), Ok(count)) => {
            put_fresh(alloc, files);
            put_counts(text, count, counts_of(alloc, files, seed, count));
        }
        _ => text.misspell(),
    }
}
