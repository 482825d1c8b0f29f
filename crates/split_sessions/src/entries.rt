//! Numbers and log entries, written into the bytes of an image by their places in docs/FORMAT.md.

// FNV-1a with 32 bits.
fn fnv_of(bytes: &[u8]) -> u32 {
    let mut hash = 2_166_136_261_u32;
    for byte in bytes {
        hash = (hash ^ u32::from(*byte)).wrapping_mul(16_777_619);
    }
    hash
}

/// Puts a number of so many bytes from a place on, little endian, as far as there are such places.
pub fn put_number(bytes: &mut [u8], place: usize, width: usize, number: u64) {
    let mut rest = number;
    for at in place..place.saturating_add(width) {
        if at < bytes.len() {
            bytes[at] = (rest % 256) as u8;
        }
        rest /= 256;
    }
}

// Where the numbers of an entry stand in its line, and how many bytes each has, in the order in which a table names them:
// sequence number, order, inode, generation, file block, count, staging inode, staging block, staging generation, size.
const FIELDS: [(usize, usize); 10] = [
    (8, 8),
    (16, 8),
    (24, 4),
    (28, 4),
    (32, 4),
    (6, 2),
    (36, 4),
    (40, 4),
    (44, 4),
    (48, 8),
];

/// Makes the line at this place an entry with these numbers, of kind 1 and version 1, and its check.
pub fn put_entry(bytes: &mut [u8], place: usize, numbers: &[u64; 10]) {
    let mut line = [0_u8; 64];
    line[4] = 1;
    line[5] = 1;
    for (field, number) in FIELDS.iter().zip(numbers.iter()) {
        put_number(&mut line, field.0, field.1, *number);
    }
    let check = fnv_of(&line[4..]);
    put_number(&mut line, 0, 4, u64::from(check));
    for (at, byte) in line.iter().enumerate() {
        put_number(bytes, place.saturating_add(at), 1, u64::from(*byte));
    }
}
