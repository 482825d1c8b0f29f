//! Pieces of runs, none of which has a block of another, in the order of the file.
ghost use Rattle.std.specs.Prelude.{◌≡◌, ◌+◌, ◌<◌, ◌≤◌, ◌++◌, ◌∷◌, [], ℕ, List, length, map, vec_capacity};
ghost use Rattle.file_overlay.specs.declared.runs.Run as runs;
ghost use Rattle.file_overlay.specs.Runs.{FitsRun};
ghost use Rattle.file_overlay.specs.Pieces.{back_of, end_of, front_of, piece_at, AreApart, ArePieces, IsBegun, IsEnded};

use crate::runs::Run;

// How many pieces begin before a block.
pub(crate) fn begun(pieces: &[Run], block: u64) -> usize
    requires { AreApart pieces.now }
    ensures { IsBegun pieces.now block result }
{
    let mut low = 0;
    let mut high = pieces.len();
    while low < high {
        let middle = low + (high - low) / 2;
        if u64::from(pieces[middle].file_block) < block {
            low = middle + 1;
        } else {
            high = middle;
        }
    }
    low
}

// How many pieces end at a block or before, of those that begin before it.
fn ended(pieces: &[Run], block: u32) -> usize
    requires { AreApart pieces.now }
    ensures { IsEnded pieces.now block result }
{
    let begun = begun(pieces, u64::from(block));
    if begun == 0 {
        return 0;
    }
    let last = pieces[begun - 1];
    if last.file_block + last.count <= block {
        begun
    } else {
        begun - 1
    }
}

// The blocks of a piece before a block.
fn front(piece: Run, block: u32) -> Run
    ensures { result ≡ front_of block piece }
{
    let mut part = piece;
    part.count = piece.count.min(block.saturating_sub(piece.file_block));
    part
}

// The blocks of a piece from a block on.
fn back(piece: Run, block: u32) -> Run
    requires fits { FitsRun piece }
    requires ends { block ≤ end_of piece }
    ensures { result ≡ back_of block piece }
{
    let gone = block.saturating_sub(piece.file_block);
    let mut part = piece;
    part.file_block = piece.file_block.max(block);
    part.staging_block = piece.staging_block + gone;
    part.count = piece.count - gone;
    part
}

// Puts the blocks of pieces before a block behind what is there.
fn put_fronts(room: &mut Vec<Run>, pieces: &[Run], block: u32)
    requires { length room.old.items + length pieces.now ≤ vec_capacity room.old }
    ensures items { room.new.items ≡ room.old.items ++ map (front_of block) pieces.now }
    ensures capacity { vec_capacity room.new ≡ vec_capacity room.old }
{
    for piece in pieces {
        room.push_reserved(front(*piece, block));
    }
}

// Puts the blocks of pieces from a block on behind what is there.
fn put_backs(room: &mut Vec<Run>, pieces: &[Run], block: u32)
    requires room { length room.old.items + length pieces.now ≤ vec_capacity room.old }
    requires fit { (k : ℕ) → k < length pieces.now → FitsRun (piece_at pieces.now k) }
    requires end { (k : ℕ) → k < length pieces.now → block ≤ end_of (piece_at pieces.now k) }
    ensures items { room.new.items ≡ room.old.items ++ map (back_of block) pieces.now }
    ensures capacity { vec_capacity room.new ≡ vec_capacity room.old }
{
    for piece in pieces {
        room.push_reserved(back(*piece, block));
    }
}

// Makes the pieces with a run over them, in `room`. It cuts at most two of them.
pub(crate) fn lay_over(pieces: &[Run], room: &mut Vec<Run>, run: Run)
    requires room { length pieces.now + 2 ≤ vec_capacity room.old }
    requires apart { AreApart pieces.now }
    requires fits { FitsRun run }
    ensures pieces { (runs : List runs.Run) → ArePieces runs pieces.now
        → ArePieces (runs ++ run ∷ []) room.new.items }
    ensures few { length room.new.items ≤ length pieces.now + 2 }
    ensures capacity { vec_capacity room.new ≡ vec_capacity room.old }
{
    let end = run.file_block + run.count;
    let front = begun(pieces, u64::from(run.file_block));
    let back = ended(pieces, end);
    room.clear();
    put_fronts(room, &pieces[..front], run.file_block);
    room.push_reserved(run);
    put_backs(room, &pieces[back..], end);
}
