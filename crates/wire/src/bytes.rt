// Runs of bytes. Every function takes every argument: past the end there is nothing, and a byte read there is 0.
ghost use Rattle.std.specs.Prelude.{◌≡◌, drop, get_or};
ghost use Rattle.hmac.specs.Hmac.{tag_size};
ghost use Rattle.format.specs.Format.{zeros, value2, value4, print2, print4};
ghost use Rattle.protocol.specs.Values.{same_list, nonce_size};
ghost use Rattle.format.specs.Reading.{bytes_at};
ghost use Rattle.wire.specs.Places.{padded};

// No byte but 00h. All bytes are joined and none ends the loop, so that it runs on vectors.
fn joined_zero(s: &[u8]) -> bool
    ensures { result ≡ zeros s.now }
{
    let mut all = 0;
    for b in s {
        all |= *b;
    }
    all == 0
}

// Bytes that are joined at a time.
const CHUNK: usize = 256;

// No byte but 00h, by chunks whose length the compiler knows.
pub fn all_zero(s: &[u8]) -> bool
    ensures { result ≡ zeros s.now }
{
    let mut left = s;
    while let Some((chunk, more)) = left.split_first_chunk::<CHUNK>() {
        if !joined_zero(chunk) {
            return false;
        }
        left = more;
    }
    joined_zero(left)
}

// The same bytes. No difference ends the loop, as in all_zero, so that its steps do not tell where bytes of one length differ. A tag that is checked is
// compared by it.
pub fn same_throughout(a: &[u8], b: &[u8]) -> bool
    ensures { result ≡ same_list a.now b.now }
{
    if a.len() != b.len() {
        return false;
    }
    let mut all = 0;
    for (x, y) in a.iter().zip(b) {
        all |= *x ^ *y;
    }
    all == 0
}

// The same bytes. Byte 3 is looked at first, where stamps differ most often: it is the last of their number.
pub fn same(a: &[u8], b: &[u8]) -> bool
    ensures { result ≡ same_list a.now b.now }
{
    byte_at(a, 3) == byte_at(b, 3) && same_throughout(a, b)
}

// The bytes from the place at on.
pub fn rest(s: &[u8], at: usize) -> &[u8]
    ensures { result.now ≡ drop at s.now }
{
    &s[at.min(s.len())..]
}

// At most n bytes from the place at on.
#[tactic(auto, unfolding(format::specs::Reading::bytes_at))]
pub fn part(s: &[u8], at: usize, n: usize) -> &[u8]
    ensures { result.now ≡ bytes_at s.now at n }
{
    let left = rest(s, at);
    &left[..n.min(left.len())]
}

pub fn byte_at(s: &[u8], at: usize) -> u8
    ensures { result ≡ get_or s.now at 0 }
{
    s.get(at).copied().unwrap_or(0)
}

// The number of the first 2 bytes.
pub fn number2(s: &[u8]) -> u32
    ensures { result ≡ value2 (get_or s.now 0 0) (get_or s.now 1 0) }
{
    u32::from(u16::from_be_bytes([byte_at(s, 0), byte_at(s, 1)]))
}

// The number of the first 4 bytes. Where all are there they are read with one test, and so at once.
pub fn number4(s: &[u8]) -> u32
    ensures { result ≡ value4 (get_or s.now 0 0) (get_or s.now 1 0) (get_or s.now 2 0) (get_or s.now 3 0) }
{
    match s.first_chunk::<4>() {
        Some(bytes) => u32::from_be_bytes(*bytes),
        None => u32::from_be_bytes([byte_at(s, 0), byte_at(s, 1), byte_at(s, 2), byte_at(s, 3)]),
    }
}

// A number's 2 bytes, the highest first.
pub fn bytes2(v: u16) -> [u8; crate::sizes::LENGTH]
    ensures { result ≡ print2 v }
{
    v.to_be_bytes()
}

// The first N bytes by value, followed by zeros where they are fewer.
pub fn first_bytes<const N: usize>(s: &[u8]) -> [u8; N]
    ensures { result ≡ padded N s.now }
{
    let mut a = [0; N];
    let n = N.min(s.len());
    a[..n].copy_from_slice(&s[..n]);
    a
}

// The first bytes as a nonce or a digest.
pub fn nonce_of(s: &[u8]) -> [u8; cluster::KEY]
    ensures { result ≡ padded nonce_size s.now }
{
    first_bytes(s)
}
