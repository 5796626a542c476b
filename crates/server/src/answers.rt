// The answers to requests, one function for each kind.
ghost use Rattle.std.specs.Prelude.{◌≡◌, []};
ghost use Rattle.cluster.specs.Refusals.{outcome_told};
ghost use Rattle.protocol.specs.declared.kinds.Kind.TheVariants as kind;
ghost use Rattle.protocol.specs.Kinds.{kind_number};
ghost use Rattle.wire.specs.Make.{packet_step};
ghost use Rattle.server.specs.Answers.{reply_head_def, AnswersFor, AnswersAll, raised_bytes};

use crate::memory::LATEST;
use cluster::Refusal;
use protocol::kinds::Kind;
use wire::bytes::part;

// The head of a reply. A head has the kind by its number.
pub(crate) fn reply_head(head: protocol::Head, kind: Kind) -> protocol::Head
    ensures { result ≡ reply_head_def head (kind_number kind) }
{
    protocol::Head {
        kind: kind.number(),
        client: head.client,
        server: head.server,
        t: head.t,
        call: head.call,
    }
}

// A reply of a kind, whose body is one run of bytes.
pub(crate) fn reply(
    head: protocol::Head,
    kind: Kind,
    body: &[u8],
    out: &mut [u8],
) -> Result<usize, Refusal>
    ensures { record { result = outcome_told result; output = out.new } ≡ packet_step (reply_head_def head (kind_number kind)) body.now [] out.old }
{
    wire::make::make_packet(reply_head(head, kind), body, &[], out)
}

// Clock: the latest candidate's stamp.
pub(crate) fn clock(memory: &[u8], head: protocol::Head, out: &mut [u8]) -> Result<usize, Refusal>
    ensures { AnswersAll kind.Clock memory.now out.old head
        (record { result = outcome_told result; memory = memory.now; output = out.new }) }
{
    let stamp = part(memory, LATEST, wire::sizes::STAMP);
    reply(head, Kind::ClockReply, stamp, out)
}

// Collect: the latest candidate.
pub(crate) fn collect(memory: &[u8], head: protocol::Head, out: &mut [u8]) -> Result<usize, Refusal>
    ensures { AnswersAll kind.Collect memory.now out.old head
        (record { result = outcome_told result; memory = memory.now; output = out.new }) }
{
    let candidate = part(memory, LATEST, wire::sizes::candidate_size(head.t));
    reply(head, Kind::CollectReply, candidate, out)
}

// A candidate becomes the latest if its stamp is higher.
pub(crate) fn raise(memory: &mut [u8], candidate: &[u8])
    ensures { memory.new ≡ raised_bytes memory.old candidate.now }
{
    let latest = wire::values::head_at(wire::bytes::rest(memory, LATEST));
    let next = wire::values::head_at(candidate);
    if latest.below(next) {
        wire::make::put(memory, LATEST, candidate);
    }
}

// Complete: the candidate, with no test of validity.
pub(crate) fn complete(
    memory: &mut [u8],
    head: protocol::Head,
    packet: &[u8],
    out: &mut [u8],
) -> Result<usize, Refusal>
    ensures { AnswersFor kind.Complete memory.old packet.now out.old head
        (record { result = outcome_told result; memory = memory.new; output = out.new }) }
{
    raise(memory, wire::bytes::rest(packet, wire::sizes::HEAD));
    reply(head, Kind::CompleteReply, &[], out)
}
