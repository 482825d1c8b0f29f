//! The word that some bytes are put into.
ghost use Rattle.std.specs.Prelude.{◌≡◌, ◌+◌, ◌*◌, ◌^◌, ◌<◌, ◌≤◌, length, IsTrue, ◌↔◌, true};
ghost use Rattle.block_io.specs.Puts.{is_reached, put_byte, put_word};

// Byte `j` of a word, which was `old`.
fn put_byte(old: u64, word: u64, place: u64, bytes: &[u8], j: u64) -> u8
    requires small { j < 8 }
    requires fits { 8 * word + 8 < 2 ^ 64 }
    ensures { result ≡ put_byte place bytes.now old word j }
{
    let k = 8 * word + j;
    if place <= k {
        let at = (k - place) as usize;
        if at < bytes.len() {
            return bytes[at];
        }
    }
    old.to_le_bytes()[j as usize]
}

// A word, which was `old`, with the bytes that stand from byte `place` of the device on.
#[tactic(auto, unfolding(crate::specs::Puts::put_word))]
pub(crate) fn put_word(old: u64, word: u64, place: u64, bytes: &[u8]) -> u64
    requires fits { 8 * word + 8 < 2 ^ 64 }
    ensures { result ≡ put_word place bytes.now old word }
{
    u64::from_le_bytes([
        put_byte(old, word, place, bytes, 0),
        put_byte(old, word, place, bytes, 1),
        put_byte(old, word, place, bytes, 2),
        put_byte(old, word, place, bytes, 3),
        put_byte(old, word, place, bytes, 4),
        put_byte(old, word, place, bytes, 5),
        put_byte(old, word, place, bytes, 6),
        put_byte(old, word, place, bytes, 7),
    ])
}

// Whether one of `count` bytes from `place` on is in a word.
pub(crate) fn is_reached(place: u64, count: u64, word: u64) -> bool
    requires fits { 8 * word + 8 < 2 ^ 64 }
    requires range { place + count < 2 ^ 64 }
    ensures { result ≡ is_reached place count word }
{
    place < 8 * word + 8 && 8 * word < place + count
}
