// FIPS 180-4, 5.2.1 and 6.2.2: whole blocks, from the bytes of a slice to the hash value.
ghost use Rattle.std.specs.Prelude.{◌≡◌, ◌+◌, ◌*◌, ◌<◌, ◌/◌, length};
ghost use Rattle.sha256.specs.Sha256.{word_at, block, hashed};

use super::turns::compress;
use std::array;

// The word at byte i.
#[tactic(auto, unfolding(crate::specs::Sha256::word_at))]
fn word(m: &[u8], i: usize) -> u32
    requires { i + 3 < length m.now }
    ensures { result ≡ word_at m.now i }
{
    u32::from_be_bytes([m[i], m[i + 1], m[i + 2], m[i + 3]])
}

// The 16 words of block j.
fn words(m: &[u8], j: usize) -> [u32; 16]
    requires { 64 * j + 63 < length m.now }
    ensures { result ≡ block m.now j }
{
    array::from_fn(|i| word(m, 64 * j + 4 * i))
}

// The hash value after the whole blocks of m.
pub(crate) fn absorb(h: [u32; 8], m: &[u8]) -> [u32; 8]
    ensures { result ≡ hashed h (length m.now / 64) m.now }
{
    let mut v = h;
    for j in 0..m.len() / 64 {
        compress(&mut v, words(m, j));
    }
    v
}
