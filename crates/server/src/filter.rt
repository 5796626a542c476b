// Filter: the highest valid candidate of a list becomes the latest if it is higher, and what is held for its stamp is the reply.
// `as` stands where a number has no `From`; the proof says that it fits.
ghost use Rattle.std.specs.Prelude.{◌≡◌, [], ◌∷◌, ◌++◌, ◌≤◌, drop, get_or};
ghost use Rattle.cluster.specs.Config.{shelf};
ghost use Rattle.cluster.specs.Refusals.{outcome_told};
ghost use Rattle.protocol.specs.declared.kinds.Kind.TheVariants as kind;
ghost use Rattle.protocol.specs.Packet.{stamp_f, head_size};
ghost use Rattle.wire.specs.Places.{length_at, share_size_def};
ghost use Rattle.server.specs.Answers.{AnswersAs};
ghost use Rattle.server.specs.Filter.{ChosenAs, ChosenUnder, share_bytes_def, HeldAs};

use crate::memory::{Opened, find};
use crate::rank::{next_rank, slot, slot_with};
use crate::valid::{by_history, by_tag, digest_nonce};
use cluster::Refusal;
use protocol::kinds::Kind;
use wire::bytes::{part, rest};

// Bytes of a list's count, before its candidates.
const COUNT_SIZE: usize = 1;

// The rest of the walk: the ranks below a bound, with a key that is prepared.
fn choose_under(
    memory: &[u8],
    prepared: hmac::Prepared,
    opened: Opened,
    list: &[u8],
    count: u8,
    mut bound: u64,
) -> Option<u8>
    requires { 1 ≤ opened.server }
    ensures { ChosenUnder memory.now prepared opened list.now count bound result }
{
    while let Some(rank) = next_rank(list, opened.t, count, bound) {
        let i = slot_with(rank);
        if crate::valid::valid_prepared(memory, prepared, opened, slot(list, opened.t, i)) {
            return Some(i);
        }
        bound = rank;
    }
    None
}

// Candidates are tested from the highest rank down, up to the first valid one: a test costs a digest and a tag. Where the highest is
// held, no tag is needed; else the key is prepared, once for all of them.
fn choose(
    memory: &[u8],
    key: [u8; cluster::KEY],
    opened: Opened,
    list: &[u8],
    count: u8,
) -> Option<u8>
    requires { 1 ≤ opened.server }
    ensures { ChosenAs memory.now key opened list.now count result }
{
    let rank = next_rank(list, opened.t, count, crate::rank::ABOVE)?;
    let i = slot_with(rank);
    let candidate = slot(list, opened.t, i);
    let digest = digest_nonce(candidate);
    if by_history(memory, opened, candidate, digest) {
        return Some(i);
    }
    let prepared = hmac::prepare(key);
    if by_tag(prepared, opened, candidate, digest) {
        return Some(i);
    }
    choose_under(memory, prepared, opened, list, count, rank)
}

// A stamp and the byte that says whether a share follows.
fn held_head(stamp: protocol::Stamp, flag: u8) -> [u8; wire::sizes::HELD]
    ensures { result ≡ stamp_f.print stamp ++ flag ∷ [] }
{
    let mut bytes = [0u8; wire::sizes::HELD];
    wire::make::put_stamp(&mut bytes, 0, stamp);
    wire::make::put_byte(&mut bytes, wire::sizes::STAMP, flag);
    bytes
}

// The length of a share, by its record length.
fn share_size(share: &[u8], t: u8) -> usize
    ensures { result ≡ share_size_def (shelf t) (length_at share.now) }
{
    wire::sizes::share_size(t, wire::bytes::number2(share))
}

// The share of the stored write at a place.
fn share_bytes(memory: &[u8], at: usize, t: u8) -> &[u8]
    ensures { result.now ≡ share_bytes_def (shelf t) memory.now at }
{
    let share = rest(rest(memory, at), wire::sizes::STAMP);
    part(share, 0, share_size(share, t))
}

// The reply for a stamp: what the stored writes hold for it.
fn reply_held(
    memory: &[u8],
    head: protocol::Head,
    opened: Opened,
    stamp: protocol::Stamp,
    out: &mut [u8],
) -> Result<usize, Refusal>
    ensures { HeldAs memory.now head opened stamp out.old (record { result = outcome_told result; output = out.new }) }
{
    let nothing = held_head(stamp, 0);
    let Some(at) = find(memory, opened, &nothing) else {
        return crate::answers::reply(head, Kind::FilterReply, &nothing, out);
    };
    wire::make::make_packet(
        crate::answers::reply_head(head, Kind::FilterReply),
        &held_head(stamp, 1),
        share_bytes(memory, at, opened.t),
        out,
    )
}

// The reply is made before the candidate is raised: the history is the same.
pub(crate) fn filter(
    memory: &mut [u8],
    key: [u8; cluster::KEY],
    passed: wire::packet::Passed,
    packet: &[u8],
    opened: Opened,
    out: &mut [u8],
) -> Result<usize, Refusal>
    requires { (1 ≤ opened.server) × (passed.number ≡ get_or (drop head_size packet.now) 0 0) }
    ensures { AnswersAs kind.Filter memory.old key packet.now out.old passed.head opened
        (record { result = outcome_told result; memory = memory.new; output = out.new }) }
{
    let head = passed.head;
    let list = rest(rest(packet, wire::sizes::HEAD), COUNT_SIZE);
    let count = passed.number as u8;
    let Some(i) = choose(memory, key, opened, list, count) else {
        return reply_held(memory, head, opened, protocol::Stamp::blank(), out);
    };
    let chosen = slot(list, opened.t, i);
    let r = reply_held(memory, head, opened, wire::values::stamp_at(chosen), out);
    crate::answers::raise(memory, chosen);
    r
}
