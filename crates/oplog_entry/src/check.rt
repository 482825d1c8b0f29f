//! The check of an entry: FNV-1a with 32 bits.
ghost use Rattle.std.specs.Prelude.{◌≡◌};
ghost use Rattle.layout_model.specs.Entries.{fnv_1a};

// Where the hash begins.
const FNV_BASIS: u32 = 2_166_136_261;

// What the hash is multiplied by for each byte.
const FNV_PRIME: u32 = 16_777_619;

// The 32-bit FNV-1a hash of the bytes: for each byte the exclusive or with it, times the prime,
// modulo 2^32.
#[tactic(auto, unfolding(layout_model::specs::Entries::fnv_1a_from))]
pub(crate) fn fnv_1a(bytes: &[u8]) -> u32
    ensures { result ≡ fnv_1a bytes.now }
{
    let mut hash = FNV_BASIS;
    for byte in bytes {
        hash = (hash ^ u32::from(*byte)).wrapping_mul(FNV_PRIME);
    }
    hash
}
