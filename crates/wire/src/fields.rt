// Readers of single fields. Each answers a number and the cursor past the field, or None: there the bytes break the layout.
// `as` stands where a number has no `From`; the proof says that it fits.
ghost use Rattle.std.specs.Prelude.{◌<◌, ◌≤◌, length};
ghost use Rattle.wire.specs.Reads.{FieldAs, RangedAs, byte_l, number2_l, number4_l, code_l, RunAs, ZeroAs};

use crate::bytes::{all_zero, number2, number4, rest};
use protocol::codes::Code;

// A place in bytes.
#[derive(Clone, Copy)]
pub struct Cursor {
    pub at: usize,
}

// The number v, where it is from lo to hi, and the place past its bytes.
fn ranged(v: u32, lo: u32, hi: u32, next: usize) -> Option<(u32, Cursor)>
    ensures { RangedAs lo hi v next result }
{
    if v < lo || hi < v {
        return None;
    }
    Some((v, Cursor { at: next }))
}

// A byte from lo to hi.
pub fn byte_field(s: &[u8], c: Cursor, lo: u32, hi: u32) -> Option<(u32, Cursor)>
    ensures { FieldAs (byte_l lo hi) s.now c.at result }
{
    let v = *s.get(c.at)?;
    ranged(u32::from(v), lo, hi, c.at + 1)
}

// A number of 2 bytes, from lo to hi.
pub(crate) fn number2_field(s: &[u8], c: Cursor, lo: u32, hi: u32) -> Option<(u32, Cursor)>
    ensures { FieldAs (number2_l lo hi) s.now c.at result }
{
    let b = rest(s, c.at);
    if b.len() < crate::sizes::LENGTH {
        return None;
    }
    ranged(number2(b), lo, hi, c.at + crate::sizes::LENGTH)
}

// A number of 4 bytes, from lo to hi. Not one function with number2_field: their formats are two definitions, number2_l and number4_l.
pub(crate) fn number4_field(s: &[u8], c: Cursor, lo: u32, hi: u32) -> Option<(u32, Cursor)>
    ensures { FieldAs (number4_l lo hi) s.now c.at result }
{
    let b = rest(s, c.at);
    if b.len() < crate::sizes::NUMBER {
        return None;
    }
    ranged(number4(b), lo, hi, c.at + crate::sizes::NUMBER)
}

// n bytes.
pub(crate) fn run_field(s: &[u8], c: Cursor, n: usize) -> Option<Cursor>
    requires { c.at ≤ length s.now }
    ensures { RunAs n s.now c.at result }
{
    if s.len() - c.at < n {
        return None;
    }
    Some(Cursor { at: c.at + n })
}

// n bytes, all zero.
pub(crate) fn zero_run(s: &[u8], c: Cursor, n: usize) -> Option<Cursor>
    requires { 0 < n }
    ensures { ZeroAs n s.now c.at result }
{
    if s.len().saturating_sub(c.at) < n {
        return None;
    }
    let end = c.at + n;
    if !all_zero(&s[c.at..end]) {
        return None;
    }
    Some(Cursor { at: end })
}

// The answer to a store: 0, 10 or 11.
pub(crate) fn code_field(s: &[u8], c: Cursor) -> Option<(u32, Cursor)>
    ensures { FieldAs code_l s.now c.at result }
{
    let (v, next) = byte_field(s, c, 0, u32::from(Code::Full.number()))?;
    Code::of(v as u8)?;
    Some((v, next))
}
