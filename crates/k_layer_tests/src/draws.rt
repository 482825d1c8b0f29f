//! Calls that are drawn from a seed, made by K-Split and by the plain model.
ghost use Rattle.std.specs.Prelude.{◌<◌, OnOk};
ghost use Rattle.k_map_tests.specs.Calls.{IsFresh};

use crate::model::{BLOCKS, Blocks, INODES, Model, ModelFile};
use extent_map::ExtentMap;
use k_map_tests::{MapCall, Put, Reply, begun, block_bytes, left, made, opened};
use k_split::{KSplit, Move};
use std::alloc::Global;
use std::test::Fail;
use test_kit::{Draws, RowError};

const CALLS: u32 = 1000;

const SEED: u64 = 20261128;

// The bytes of twelve blocks, and one more.
const SIZES: u32 = 49153;

fn drawn_file(draws: &mut Draws) -> u32 {
    5 + draws.below(2)
}

fn drawn_staging(draws: &mut Draws) -> u32 {
    1 + draws.below(4)
}

fn drawn_put(draws: &mut Draws, places: u32, most: u32) -> Put
    requires places { 0 < places }
    requires most { 0 < most }
{
    Put {
        at: draws.below(places),
        count: draws.below(most),
        byte: draws.below(256) as u8,
    }
}

fn drawn_move(draws: &mut Draws) -> Move {
    Move {
        staging: drawn_staging(draws),
        staging_block: draws.below(6),
        ino: drawn_file(draws),
        file_block: draws.below(12),
        count: 1 + draws.below(3),
        size: u64::from(draws.below(SIZES)),
        applied: u64::from(draws.below(1000)),
    }
}

fn drawn_call(draws: &mut Draws) -> MapCall {
    match draws.below(9) {
        0 => MapCall::Size {
            ino: drawn_file(draws),
            size: draws.below(SIZES),
        },
        1 | 2 => MapCall::Fill {
            ino: drawn_file(draws),
            first: draws.below(10),
            count: 1 + draws.below(6),
        },
        3 => MapCall::Take {
            staging: drawn_staging(draws),
            count: 1 + draws.below(8),
        },
        4 => MapCall::Give {
            staging: drawn_staging(draws),
        },
        5 => MapCall::Relink(drawn_move(draws)),
        6 => MapCall::Write {
            ino: drawn_file(draws),
            bytes: drawn_put(draws, SIZES, 6000),
        },
        7 => MapCall::Stage {
            staging: drawn_staging(draws),
            block: draws.below(8),
            bytes: drawn_put(draws, 4096, 3000),
        },
        _ => MapCall::Clean {
            ino: drawn_file(draws),
            from: draws.below(SIZES),
        },
    }
}

// Whether a block has these bytes.
fn is_same_block(k: &KSplit, model: &Model, block: u32) -> Result<bool, RowError>
    requires { IsFresh k.now }
{
    let bytes = block_bytes(k, block)?;
    match model.block(block) {
        Some(wanted) => Ok(bytes.as_slice() == wanted),
        None => Ok(false),
    }
}

// Whether a map has just these disk blocks.
fn is_same_map(map: &ExtentMap, blocks: &Blocks) -> bool {
    let mut place: u32 = 0;
    for block in blocks {
        if map.lookup(place) != *block {
            return false;
        }
        place = place.saturating_add(1);
    }
    map.end() <= place
}

// Whether an inode has the line and the map that the model has.
fn is_same_file(k: &KSplit, ino: u32, file: &ModelFile) -> bool {
    let (Some(inode), Some(map)) = (k.node(ino), k.map(ino)) else {
        return false;
    };
    if !is_same_map(map, &file.blocks) {
        return false;
    }
    let root = file.chain.unwrap_or(0);
    inode.size == file.size && inode.applied == file.applied && inode.root == root
}

// Whether the disk blocks of an inode have the bytes that the model has.
fn are_same_bytes(k: &KSplit, model: &Model, file: &ModelFile) -> Result<bool, RowError>
    requires { IsFresh k.now }
{
    for block in &file.blocks {
        if let Some(block) = block {
            if !is_same_block(k, model, *block)? {
                return Ok(false);
            }
        }
    }
    Ok(true)
}

// Whether K-Split has what the model has.
fn is_alike(k: &KSplit, model: &Model) -> Result<bool, RowError>
    requires { IsFresh k.now }
{
    for ino in 1..INODES {
        let Some(file) = model.file(ino) else {
            return Ok(false);
        };
        if !is_same_file(k, ino, file) || !are_same_bytes(k, model, file)? {
            return Ok(false);
        }
    }
    Ok(u64::from(k.free_blocks()) == model.free_blocks())
}

// Makes a drawn call on both, and answers whether it was made. It is an error where they differ.
fn make_both(
    alloc: Global,
    k: &mut KSplit,
    model: &mut Model,
    draws: &mut Draws,
) -> Result<bool, RowError>
    requires { IsFresh k.old }
    ensures { OnOk result (IsFresh k.new) }
{
    let call = drawn_call(draws);
    let reply = made(alloc, k, &call)?;
    if reply == Reply::Unfit {
        return Ok(false);
    }
    let wanted = model.apply(k, &call)?;
    if reply == wanted && is_alike(k, model)? {
        return Ok(true);
    }
    Err(RowError::Unlike)
}

// Makes the first call on both that is drawn and may be made. It is an error where none of a thousand is.
fn make_next(
    alloc: Global,
    k: &mut KSplit,
    model: &mut Model,
    draws: &mut Draws,
) -> Result<(), RowError>
    requires { IsFresh k.old }
    ensures { OnOk result (IsFresh k.new) }
{
    for _ in 0..1000 {
        if make_both(alloc, k, model, draws)? {
            return Ok(());
        }
    }
    Err(RowError::NotRun)
}

// Likewise on an image, which is checked by the rules and opened.
fn step(
    alloc: Global,
    image: &[u8],
    model: &mut Model,
    draws: &mut Draws,
) -> Result<Vec<u8>, RowError> {
    let mut k = opened(alloc, image)?;
    make_next(alloc, &mut k, model, draws)?;
    left(alloc, k)
}

// Makes a thousand calls on both.
fn make_all(
    alloc: Global,
    image: &mut Vec<u8>,
    model: &mut Model,
    draws: &mut Draws,
) -> Result<(), RowError> {
    for _ in 0..CALLS {
        *image = step(alloc, image, model, draws)?;
    }
    Ok(())
}

// The same on a fresh device. The last image is checked too.
fn run_both(alloc: Global) -> Result<(), RowError> {
    let mut image = left(alloc, begun(alloc, BLOCKS)?)?;
    let mut model = Model::new(alloc)?;
    make_all(alloc, &mut image, &mut model, &mut Draws::new(SEED))?;
    let _last = opened(alloc, &image)?;
    Ok(())
}

#[test]
fn drawn_calls_beside_a_model(rt: HostRuntime) -> Result<(), Fail> {
    run_both(rt.alloc())?;
    Ok(())
}
