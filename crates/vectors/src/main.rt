// Runs the vectors of FIPS 180-4 and RFC 4231, and lengths on both sides of each edge of the padding, and writes each digest as a line.
// Then runs the bench cards of document 01 that are not proved.
#![tactic(auto)]

mod cards;

use std::io;
use wire::bytes::part;

// Both sides of each edge of the padding.
const EDGES: [usize; 17] = [
    0, 1, 54, 55, 56, 57, 63, 64, 65, 119, 120, 121, 127, 128, 129, 1023, 1024,
];

// Lengths of what a tag is made of before its digest.
const STAMPED: [usize; 12] = [
    0,
    5,
    23,
    24,
    31,
    32,
    wire::sizes::STAMP,
    55,
    56,
    63,
    64,
    1024,
];

const HEX: [u8; 16] = *b"0123456789abcdef";

// At most 32 bytes in hexadecimal, as a line: written at once, so that a pipe has whole lines.
fn show(rt: &impl Print, bytes: &[u8]) -> io::Result<()> {
    let mut line = [b'\n'; 65];
    let n = bytes.len().min(32);
    for (i, byte) in bytes[..n].iter().enumerate() {
        line[2 * i] = HEX[usize::from(*byte / 16)];
        line[2 * i + 1] = HEX[usize::from(*byte % 16)];
    }
    rt.write_all(&line[..2 * n + 1])
}

fn pattern() -> [u8; 1024] {
    std::array::from_fn(|i| ((i * 7 + 3) % 256) as u8)
}

// A key of at most 32 bytes, then zeros.
fn padded(key: &[u8]) -> [u8; 32] {
    std::array::from_fn(|i| wire::bytes::byte_at(key, i))
}

// The digest of the first bytes, and their tag, on both sides of each edge of the padding.
fn edges(rt: &impl Print, m: &[u8]) -> io::Result<()> {
    for n in EDGES {
        let message = part(m, 0, n);
        show(rt, &sha256::digest(message))?;
        show(rt, &hmac::tag([9; 32], message))?;
    }
    Ok(())
}

// HMAC over every length from 0 to 72, each keyed by the one before.
fn chain(m: &[u8]) -> [u8; 32] {
    (0..=72).fold([0; 32], |d, n| hmac::hmac(d, part(m, 0, n)))
}

// The tags of the first bytes and their digest.
fn stamps(rt: &impl Print, m: &[u8]) -> io::Result<()> {
    for n in STAMPED {
        let message = part(m, 0, n);
        show(
            rt,
            &hmac::tag_with([7; 32], message, sha256::digest(message)),
        )?;
    }
    Ok(())
}

// FIPS 180-4 (examples of one and two blocks) and NIST's message of two blocks and 112 bytes.
fn standard(rt: &impl Print) -> io::Result<()> {
    show(rt, &sha256::digest(b""))?;
    show(rt, &sha256::digest(b"abc"))?;
    show(
        rt,
        &sha256::digest(b"abcdbcdecdefdefgefghfghighijhijkijkljklmklmnlmnomnopnopq"),
    )?;
    show(
        rt,
        &sha256::digest(
            b"abcdefghbcdefghicdefghijdefghijkefghijklfghijklmghijklmnhijklmnoijklmnopjklmnopqklmnopqrlmnopqrsmnopqrstnopqrstu",
        ),
    )
}

// RFC 4231, cases 1 to 7. A shorter key has zeros behind it, a longer one is digested: RFC 2104 makes these equal. Of case 5 the RFC has
// 16 bytes; its tag follows.
fn cases(rt: &impl Print) -> io::Result<()> {
    show(rt, &hmac::hmac(padded(&[0x0b; 20]), b"Hi There"))?;
    show(
        rt,
        &hmac::hmac(padded(b"Jefe"), b"what do ya want for nothing?"),
    )?;
    show(rt, &hmac::hmac(padded(&[0xaa; 20]), &[0xdd; 50]))?;
    let counted: [u8; 25] = std::array::from_fn(|i| i as u8 + 1);
    show(rt, &hmac::hmac(padded(&counted), &[0xcd; 50]))?;
    let key = padded(&[0x0c; 20]);
    let message = b"Test With Truncation";
    show(rt, part(&hmac::hmac(key, message), 0, 16))?;
    show(rt, &hmac::tag(key, message))
}

fn long_keys(rt: &impl Print) -> io::Result<()> {
    let long = sha256::digest(&[0xaa; 131]);
    show(
        rt,
        &hmac::hmac(
            long,
            b"Test Using Larger Than Block-Size Key - Hash Key First",
        ),
    )?;
    show(
        rt,
        &hmac::hmac(
            long,
            b"This is a test using a larger than block-size key and a larger than block-size data. The key needs to be hashed before being used by the HMAC algorithm.",
        ),
    )
}

fn main(rt: HostRuntime) -> io::Result<()> {
    standard(&rt)?;
    cases(&rt)?;
    long_keys(&rt)?;
    let m = pattern();
    edges(&rt, &m)?;
    show(&rt, &chain(&m))?;
    stamps(&rt, &m)?;
    cards::run(&rt)
}
