//! An entry of the log as 64 bytes, and back.
ghost use Rattle.std.specs.Prelude.{◌≡◌, ◌≢◌, ◌<◌, ◌^◌, ◌++◌, ℕ, List, true, Some, None};
ghost use Rattle.layout_model.specs.Fields.{is_same, zeros};
ghost use Rattle.layout_model.specs.Entries.{is_draft, entry_body, encode_entry, decode_entry};
ghost use Rattle.layout_model.specs.EntryLaws.{FitsDraft, IsEntryLine};
ghost use Rattle.layout_model.specs.declared.lines.Draft.{Draft};

use crate::check::fnv_1a;
use block_counts::LONGEST_FILE;
use image_layout::{put_u16, put_u32, put_u64, u16_at, u32_at, u64_at};
use layout_model::Draft;

// The kind of the one sort of entry, and the version of its spelling.
const KIND: u8 = 1;

const VERSION: u8 = 1;

// Whether the fields are in range.
fn is_draft(draft: &Draft) -> bool
    ensures { result ≡ is_draft draft.now }
{
    let count = u32::from(draft.count);
    (1..=33).contains(&count)
        && (1..=1 << 63).contains(&draft.order)
        && draft.file_block <= 4_096
        && draft.file_block + count <= 4_096
        && (1..=4).contains(&draft.staging)
        && draft.staging_block <= 64
        && draft.staging_block + count <= 64
        && draft.size <= LONGEST_FILE
}

// The line of an entry, its check still 0.
#[tactic(auto, unfolding(layout_model::specs::Entries::entry_body))]
fn unchecked(draft: &Draft, seq: u64) -> [u8; 64]
    ensures { result ≡ zeros 4 ++ entry_body draft.now seq }
{
    let mut line = [0; 64];
    line[4] = KIND;
    line[5] = VERSION;
    put_u16(&mut line, 6, draft.count);
    put_u64(&mut line, 8, seq);
    put_u64(&mut line, 16, draft.order);
    put_u32(&mut line, 24, draft.ino);
    put_u32(&mut line, 28, draft.generation);
    put_u32(&mut line, 32, draft.file_block);
    put_u32(&mut line, 36, draft.staging);
    put_u32(&mut line, 40, draft.staging_block);
    put_u32(&mut line, 44, draft.staging_generation);
    put_u64(&mut line, 48, draft.size);
    line
}

/// The line that stands for the draft with this sequence number.
#[tactic(auto, unfolding(layout_model::specs::Entries::encode_entry))]
pub fn encode(draft: &Draft, seq: u64) -> [u8; 64]
    ensures { result ≡ encode_entry draft.now seq }
{
    let mut line = unchecked(draft, seq);
    let check = fnv_1a(&line[4..]);
    put_u32(&mut line, 0, check);
    line
}

// Whether the line is the spelling of the draft with this sequence number.
fn is_spelling(bytes: &[u8; 64], draft: &Draft, seq: u64) -> bool
    ensures { result ≡ is_same bytes.now (encode_entry draft.now seq) }
{
    *bytes == encode(draft, seq)
}

/// The draft that the line stands for with this sequence number; None exactly where it is no entry
/// with that number.
#[tactic(auto, unfolding(layout_model::specs::Entries::decode_entry))]
pub fn decode(bytes: &[u8; 64], seq: u64) -> Option<Draft>
    ensures { result ≡ decode_entry bytes.now seq }
{
    let draft = Draft {
        count: u16_at(bytes, 6),
        order: u64_at(bytes, 16),
        ino: u32_at(bytes, 24),
        generation: u32_at(bytes, 28),
        file_block: u32_at(bytes, 32),
        staging: u32_at(bytes, 36),
        staging_block: u32_at(bytes, 40),
        staging_generation: u32_at(bytes, 44),
        size: u64_at(bytes, 48),
    };
    if is_draft(&draft) && is_spelling(bytes, &draft, seq) {
        Some(draft)
    } else {
        None
    }
}

/// What is spelled with a number is read with it, what is read is spelled so, and a line is read
/// with one number alone.
pub fn entries_are_exact()
    ensures read { (d : Draft) (seq : ℕ) → FitsDraft d → is_draft d ≡ true
        → decode_entry (encode_entry d seq) seq ≡ Some d }
    ensures spelled { (bytes : List ℕ) (seq : ℕ) (d : Draft)
        → decode_entry bytes seq ≡ Some d → IsEntryLine bytes seq d }
    ensures one_number { (bytes : List ℕ) (s t : ℕ) (d : Draft) → s < 2 ^ 64 → t < 2 ^ 64 → s ≢ t
        → decode_entry bytes s ≡ Some d → decode_entry bytes t ≡ None }
{}
