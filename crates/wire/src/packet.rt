// Readers of packets. A packet is let through by its fields, one after another, up to its last byte.
// `as` stands where a number has no `From`; the proof says that it fits.
ghost use Rattle.std.specs.Prelude.{◌≡◌, ◌≤◌, length};
ghost use Rattle.cluster.specs.Config.{shelf};
ghost use Rattle.protocol.specs.Kinds.{kind_number};
ghost use Rattle.protocol.specs.Packet.{decode};
ghost use Rattle.protocol.specs.View.{share_at};
ghost use Rattle.wire.specs.Places.{fragment_in};
ghost use Rattle.wire.specs.Reads.{HeadAs, BodyAs, PacketAs};

use crate::bytes::{number2, part, rest};
use crate::fields::{Cursor, byte_field, code_field, number4_field};
use crate::parts::{
    NO_LABEL, any_candidate_field, any_stamp_field, candidate_field, candidates_field, held_field,
    unlabelled, write_field,
};
use protocol::kinds::Kind;

// What is told of a packet that was let through, so that nobody reads it again by its place: its head, the kind that the head's number is, number and
// writer of the stamp that its body begins with, and the number that the body's reader read (a store's record length, its reply's code, a filter's
// count, its reply's byte).
#[derive(Clone, Copy)]
pub struct Passed {
    pub head: protocol::Head,
    pub kind: Kind,
    pub label: protocol::Label,
    pub number: u32,
}

// kind, client, server, t, call; and the cursor past the head.
pub(crate) fn head_field(s: &[u8]) -> Option<(protocol::Head, Cursor)>
    ensures { HeadAs s.now result }
{
    let start = Cursor { at: 0 };
    let (kind, c1) = byte_field(
        s,
        start,
        u32::from(Kind::Clock.number()),
        u32::from(Kind::RepairReply.number()),
    )?;
    let (client, c2) = byte_field(s, c1, 1, cluster::TOP_CLIENT as u32)?;
    let (server, c3) = byte_field(s, c2, 1, cluster::MOST_SERVERS as u32)?;
    let (t, c4) = byte_field(s, c3, 1, cluster::TOP_FAULTS as u32)?;
    let (call, c5) = number4_field(s, c4, 1, cluster::TOP_NUMBER as u32)?;
    if cluster::servers(t as u8) < server as usize {
        return None;
    }
    let head = protocol::Head {
        kind: kind as u8,
        client: client as u8,
        server: server as u8,
        t: t as u8,
        call,
    };
    Some((head, c5))
}

// The body of a packet; clock, collect, and the replies to complete and repair have none. A body that begins with no stamp has number and writer 0.
fn body_field(s: &[u8], c: Cursor, kind: Kind, t: u8) -> Option<(protocol::Label, u32, Cursor)>
    requires { c.at ≤ length s.now }
    ensures { BodyAs (shelf t) (kind_number kind) s.now c.at result }
{
    match kind {
        Kind::ClockReply => any_stamp_field(s, c), // a stamp, or the blank
        Kind::Store => write_field(s, c, t), // a stored write
        Kind::StoreReply => unlabelled(code_field(s, c)), // 0, 10 or 11
        Kind::CollectReply => any_candidate_field(s, c, t), // a candidate, or the blank
        Kind::Complete | Kind::Repair => candidate_field(s, c, t), // a candidate
        Kind::Filter => unlabelled(candidates_field(s, c, t)), // a list of candidates
        Kind::FilterReply => held_field(s, c, t), // what is held for a stamp, or the blank
        Kind::Clock | Kind::Collect | Kind::CompleteReply | Kind::RepairReply => Some((
            NO_LABEL, 0, c,
        )),
    }
}

// A whole packet of any kind; None is refusal 7.
pub fn read_packet(packet: &[u8]) -> Option<Passed>
    ensures { PacketAs packet.now result }
{
    let (head, c1) = head_field(packet)?;
    let kind = Kind::of(head.kind)?;
    let (label, number, end) = body_field(packet, c1, kind, head.t)?;
    if end.at < packet.len() {
        return None;
    }
    Some(Passed {
        head,
        kind,
        label,
        number,
    })
}

// The fragment in a share, as that part of the share.
#[tactic(auto, unfolding(protocol::specs::View::share_at, protocol::specs::View::share_of_size))]
pub fn share_fragment(share: &[u8], t: u8) -> &[u8]
    ensures { result.now ≡ (share_at (shelf t) share.now).fragment }
{
    part(
        share,
        crate::sizes::LENGTH,
        crate::sizes::fragment_size(t, number2(share)),
    )
}

// The fragment in a store or in the reply to filter, as that part of the packet; the empty part where the packet is broken or has none.
pub fn fragment(packet: &[u8]) -> &[u8]
    ensures { result.now ≡ fragment_in (decode packet.now) }
{
    let Some(passed) = read_packet(packet) else {
        return &[];
    };
    let at = crate::sizes::HEAD + crate::sizes::STAMP;
    match passed.kind {
        Kind::Store => share_fragment(rest(packet, at), passed.head.t),
        Kind::FilterReply => {
            if passed.number == 0 {
                return &[];
            }
            share_fragment(rest(packet, at + 1), passed.head.t)
        }
        Kind::Clock
        | Kind::ClockReply
        | Kind::StoreReply
        | Kind::Complete
        | Kind::CompleteReply
        | Kind::Collect
        | Kind::CollectReply
        | Kind::Filter
        | Kind::Repair
        | Kind::RepairReply => &[],
    }
}
