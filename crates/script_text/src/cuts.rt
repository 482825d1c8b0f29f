//! Parts of bytes, up to some byte and from it on.
ghost use Rattle.std.specs.Prelude.{◌≡◌, ◌≢◌, ◌<◌, ◌≤◌, ℕ, length, slice_index, take, drop};

/// How many bytes stand before the first of some value; all, where there is none.
pub(crate) fn length_before(bytes: &[u8], stop: u8) -> usize
    ensures within { result ≤ length bytes.now }
    ensures before { (k : ℕ) → k < result → slice_index bytes.now k ≢ stop }
    ensures stops { result < length bytes.now → slice_index bytes.now result ≡ stop }
{
    for (at, byte) in bytes.iter().enumerate() {
        if *byte == stop {
            return at;
        }
    }
    bytes.len()
}

/// The first bytes.
pub(crate) fn front(bytes: &[u8], count: usize) -> &[u8]
    requires { count ≤ length bytes.now }
    ensures { result.now ≡ take count bytes.now }
{
    &bytes[..count]
}

/// The bytes behind the first.
pub(crate) fn behind(bytes: &[u8], count: usize) -> &[u8]
    requires { count ≤ length bytes.now }
    ensures { result.now ≡ drop count bytes.now }
{
    &bytes[count..]
}
