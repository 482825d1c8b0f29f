// The device as its journal makes it, read line by line. Nothing is written.
ghost use Rattle.std.specs.Prelude.{◌≡◌, ◌+◌, ◌*◌, ◌/◌, ◌%◌, ◌<◌, ◌≤◌, ℕ, false, length};
ghost use Rattle.k_journal.specs.layout_model.Journal.{is_journal_word, journaled, committed, record_target};
ghost use Rattle.k_journal.specs.layout_model.Places.{record_line};
ghost use Rattle.k_journal.specs.pm_model.Cells.{AllHome};
ghost use Rattle.k_journal.specs.pm_model.Images.{words_of};
ghost use Rattle.k_journal.specs.pm_model.Words.{line_bytes};

use pm_lines::Pm;

// The word that has the number of committed records.
const COMMIT_WORD: u64 = 8;

// The first line of a record, which has its target. The next line has its content.
fn record_line(index: u32) -> u64
    requires { index < 128 }
    ensures { result ≡ record_line index }
{
    64 + 2 * u64::from(index)
}

// How many records are committed; a commit word above 128 commits none.
pub(crate) fn committed(pm: &Pm) -> u32
    requires device { 2560 ≤ length pm.now }
    requires home { AllHome pm.now }
    ensures number { result ≡ committed (words_of pm.now) }
    ensures few { result ≤ 128 }
{
    let count = pm.read_word(COMMIT_WORD);
    if count <= 128 { count as u32 } else { 0 }
}

// The line that a record is for.
pub(crate) fn target_of(pm: &Pm, index: u32) -> u64
    requires index { index < 128 }
    requires device { 2560 ≤ length pm.now }
    requires home { AllHome pm.now }
    ensures { result ≡ record_target (words_of pm.now) index }
{
    pm.read_word(8 * record_line(index))
}

// The line of the device that a line of the view has its words from: the content of the last
// committed record that is for it, else the line itself.
fn source_of(pm: &Pm, line: u64) -> u64
    requires device { 2560 ≤ length pm.now }
    requires home { AllHome pm.now }
    requires in_device { line < length pm.now / 8 }
    ensures in_device { result < length pm.now / 8 }
    ensures words { (i : ℕ) → i / 8 ≡ line → is_journal_word i ≡ false
        → journaled (words_of pm.now) i ≡ words_of pm.now (8 * result + i % 8) }
{
    let count = committed(pm);
    let mut source = line;
    for record in 0..count {
        if target_of(pm, record) == line {
            source = record_line(record) + 1;
        }
    }
    source
}

/// The bytes of a line of the device as its journal makes it, one with no word of the journal.
pub fn view_line(pm: &Pm, line: u64) -> [u8; 64]
    requires device { 2560 ≤ length pm.now }
    requires home { AllHome pm.now }
    requires in_device { line < length pm.now / 8 }
    requires apart { (i : ℕ) → i / 8 ≡ line → is_journal_word i ≡ false }
    ensures { result ≡ line_bytes (journaled (words_of pm.now)) line }
{
    pm.read_line(source_of(pm, line))
}

// A word of the view, one that is no word of the journal.
pub(crate) fn view_word(pm: &Pm, word: u64) -> u64
    requires device { 2560 ≤ length pm.now }
    requires home { AllHome pm.now }
    requires in_device { word < length pm.now }
    requires whole { length pm.now % 8 ≡ 0 }
    requires apart { is_journal_word word ≡ false }
    ensures { result ≡ journaled (words_of pm.now) word }
{
    // It bounds the words' numbers.
    let _ = pm.words();
    pm.read_word(8 * source_of(pm, word / 8) + word % 8)
}
