// Readers of the parts of packets: each lets its fields through one after another, and answers None where the bytes break the layout.
// A part that begins with a stamp answers the stamp's number and writer too, so that nobody reads them again by their place: the label, 0 and 0 where the
// stamp is blank; the number that follows the stamp, 0 where none does; and the cursor past the part.
// `as` stands where a number has no `From`; the proof says that it fits.
ghost use Rattle.std.specs.Prelude.{◌≡◌, cond, ◌≤◌, eqb, length};
ghost use Rattle.cluster.specs.Config.{shelf};
ghost use Rattle.wire.specs.Reads.{FieldAs, LabelledAs, stamp_l, any_stamp_l, share_l, write_l, candidate_l, any_candidate_l, candidates_l, held_l};
ghost use Rattle.wire.specs.Reads.{ManyAs, without_label};

use crate::fields::{Cursor, byte_field, number2_field, number4_field, run_field, zero_run};

// What is told of a blank stamp, and where there is none.
pub(crate) const NO_LABEL: protocol::Label = protocol::Label {
    number: 0,
    writer: 0,
};

// The answer of a field that begins with no stamp.
pub(crate) fn unlabelled(field: Option<(u32, Cursor)>) -> Option<(protocol::Label, u32, Cursor)>
    ensures { result ≡ without_label field }
{
    let (v, next) = field?;
    Some((NO_LABEL, v, next))
}

// A stamp that is not blank: number, writer, tag.
pub fn stamp_field(s: &[u8], c: Cursor) -> Option<(protocol::Label, u32, Cursor)>
    ensures { LabelledAs stamp_l s.now c.at result }
{
    let (number, c1) = number4_field(s, c, 1, cluster::TOP_NUMBER as u32)?;
    let (writer, c2) = byte_field(s, c1, 1, cluster::TOP_WRITER as u32)?;
    let c3 = run_field(s, c2, hmac::TAG)?;
    let label = protocol::Label {
        number,
        writer: writer as u8,
    };
    Some((label, 0, c3))
}

// A stamp that may be blank.
pub(crate) fn any_stamp_field(s: &[u8], c: Cursor) -> Option<(protocol::Label, u32, Cursor)>
    ensures { LabelledAs any_stamp_l s.now c.at result }
{
    if let Some(stamp) = stamp_field(s, c) {
        return Some(stamp);
    }
    let next = zero_run(s, c, crate::sizes::STAMP)?;
    Some((NO_LABEL, 0, next))
}

// A share: record length, then fragment, S digests, nonce digest and S tags. These are runs of bytes one after the other, which are there if their
// join is: one test for the four.
pub fn share_field(s: &[u8], c: Cursor, t: u8) -> Option<(u32, Cursor)>
    ensures { FieldAs (share_l (shelf t)) s.now c.at result }
{
    let (n, c1) = number2_field(s, c, 0, cluster::TOP_LENGTH as u32)?;
    let size = crate::sizes::share_size(t, n) - crate::sizes::LENGTH;
    let c2 = run_field(s, c1, size)?;
    Some((n, c2))
}

// A stored write: its stamp and its share.
pub fn write_field(s: &[u8], c: Cursor, t: u8) -> Option<(protocol::Label, u32, Cursor)>
    ensures { LabelledAs (write_l (shelf t)) s.now c.at result }
{
    let (label, _, c1) = stamp_field(s, c)?;
    let (n, c2) = share_field(s, c1, t)?;
    Some((label, n, c2))
}

// A candidate that is not blank: stamp, nonce, S tags.
pub(crate) fn candidate_field(s: &[u8], c: Cursor, t: u8) -> Option<(protocol::Label, u32, Cursor)>
    ensures { LabelledAs (candidate_l (shelf t)) s.now c.at result }
{
    let (label, _, c1) = stamp_field(s, c)?;
    let c2 = run_field(s, c1, crate::sizes::NONCE)?;
    let c3 = run_field(s, c2, crate::sizes::tags_size(t))?;
    Some((label, 0, c3))
}

// A candidate that may be blank, which is then all zero. Not one function with any_stamp_field: its contract would have to name both formats.
pub fn any_candidate_field(s: &[u8], c: Cursor, t: u8) -> Option<(protocol::Label, u32, Cursor)>
    ensures { LabelledAs (any_candidate_l (shelf t)) s.now c.at result }
{
    if let Some(candidate) = candidate_field(s, c, t) {
        return Some(candidate);
    }
    let next = zero_run(s, c, crate::sizes::candidate_size(t))?;
    Some((NO_LABEL, 0, next))
}

// n candidates, one after the other.
pub(crate) fn candidate_run(s: &[u8], c: Cursor, t: u8, n: u32) -> Option<Cursor>
    requires { c.at ≤ length s.now }
    ensures { ManyAs (shelf t) n s.now c.at result }
{
    let mut at = c.at;
    for _ in 0..n {
        let (_, _, next) = candidate_field(s, Cursor { at }, t)?;
        at = next.at;
    }
    Some(Cursor { at })
}

// A count from 0 to S and so many candidates.
pub(crate) fn candidates_field(s: &[u8], c: Cursor, t: u8) -> Option<(u32, Cursor)>
    ensures { FieldAs (candidates_l (shelf t)) s.now c.at result }
{
    let (n, c1) = byte_field(s, c, 0, cluster::servers(t) as u32)?;
    let c2 = candidate_run(s, c1, t, n)?;
    Some((n, c2))
}

// Byte 1 follows only a stamp that is not blank.
fn held_most(number: u32) -> u32
    ensures { result ≡ cond (eqb number 0) 0 1 }
{
    u32::from(number != 0)
}

// What a server holds for a stamp: the stamp, a byte 0 or 1 and, after 1, a share.
pub(crate) fn held_field(s: &[u8], c: Cursor, t: u8) -> Option<(protocol::Label, u32, Cursor)>
    ensures { LabelledAs (held_l (shelf t)) s.now c.at result }
{
    let (label, _, c1) = any_stamp_field(s, c)?;
    let (flag, c2) = byte_field(s, c1, 0, held_most(label.number))?;
    if flag == 0 {
        return Some((label, flag, c2));
    }
    let (_, c3) = share_field(s, c2, t)?;
    Some((label, flag, c3))
}
