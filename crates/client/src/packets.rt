// The packet of the round, made from the kept bytes as they are.
// `as` stands where a number has no `From`; the proof says that it fits.
ghost use Rattle.std.specs.Prelude.{◌≡◌, [], ◌++◌, ◌≤◌, ◌-◌, length};
ghost use Rattle.cluster.specs.Config.{shelf};
ghost use Rattle.cluster.specs.Ranges.{top_faults, top_client, most_servers, packet_room};
ghost use Rattle.cluster.specs.Refusals.{outcome_told};
ghost use Rattle.protocol.specs.Packet.{head_f, stamp_f, share_f, candidate_f, candidates_f, encode};
ghost use Rattle.protocol.specs.Client.{made};
ghost use Rattle.protocol.specs.Kinds.{kind_number, round_number};
ghost use Rattle.protocol.specs.Rules.{gather};
ghost use Rattle.protocol.specs.View.{kept_size, view, chosen_of, share_at, reply_slot_of, candidates_in};
ghost use Rattle.wire.specs.Places.{share_size_def};
ghost use Rattle.client.specs.Core.{core_make};
ghost use Rattle.client.specs.Steps.{whole_packet};

use crate::{Party, kept, list, refusals};
use cluster::Refusal;
use protocol::kinds::Kind;
use protocol::rounds::Round;

// The head of a packet of a kind.
fn head_of(call: protocol::Call, kind: Kind, party: Party, server: usize) -> protocol::Head
    requires { (party.t ≤ top_faults) × ((party.client ≤ top_client) × (server ≤ most_servers)) }
    ensures { result ≡ record { kind = kind_number kind; client = party.client; server = server; t = party.t; call = call.number } }
{
    protocol::Head {
        kind: kind.number(),
        client: party.client as u8,
        server: server as u8,
        t: party.t as u8,
        call: call.number,
    }
}

// Bytes of a share of a content of n bytes.
fn share_size(t: usize, n: u32) -> usize
    requires { t ≤ top_faults }
    ensures { result ≡ share_size_def (shelf t) n }
{
    wire::sizes::share_size(t as u8, n)
}

// A packet without a body.
fn make_empty(head: protocol::Head, out: &mut [u8]) -> Result<usize, Refusal>
    requires { packet_room ≤ length out.old }
    ensures { record { result = outcome_told result; output = out.new } ≡ whole_packet (head_f.print head ++ ([] ++ [])) out.old }
{
    wire::make::make_packet(head, &[], &[], out)
}

// A packet with the chosen candidate.
fn make_chosen(
    head: protocol::Head,
    kept: &[u8],
    t: usize,
    out: &mut [u8],
) -> Result<usize, Refusal>
    requires { (t ≤ top_faults) × ((length kept.now ≡ kept_size) × (packet_room ≤ length out.old)) }
    ensures { record { result = outcome_told result; output = out.new }
        ≡ whole_packet (head_f.print head ++ ((candidate_f (shelf t)).print (chosen_of (shelf t) kept.now) ++ [])) out.old }
{
    let chosen = wire::bytes::part(kept, wire::kept::CHOSEN, wire::kept::CANDIDATE_SLOT);
    wire::make::make_packet(
        head,
        wire::bytes::part(chosen, 0, wire::sizes::candidate_size(t as u8)),
        &[],
        out,
    )
}

// A server's share, with the write's stamp.
fn make_store(
    head: protocol::Head,
    kept: &[u8],
    t: usize,
    server: usize,
    out: &mut [u8],
) -> Result<usize, Refusal>
    requires { (t ≤ top_faults) × ((1 ≤ server) × ((server ≤ most_servers) × ((length kept.now ≡ kept_size) × (packet_room ≤ length out.old)))) }
    ensures { record { result = outcome_told result; output = out.new }
        ≡ whole_packet (head_f.print head ++ (stamp_f.print (chosen_of (shelf t) kept.now).stamp
        ++ (share_f (shelf t)).print (share_at (shelf t) (reply_slot_of kept.now (server - 1))))) out.old }
{
    let chosen = wire::bytes::part(kept, wire::kept::CHOSEN, wire::kept::CANDIDATE_SLOT);
    let slot = wire::bytes::part(
        kept,
        wire::kept::REPLIES + wire::kept::REPLY_SLOT * (server - 1),
        wire::kept::REPLY_SLOT,
    );
    let size = share_size(t, wire::bytes::number2(slot));
    let stamp = wire::bytes::part(chosen, 0, wire::sizes::STAMP);
    wire::make::make_packet(head, stamp, wire::bytes::part(slot, 0, size), out)
}

// The list as collect left it. Its count is known once it is written, by the bytes that it took: no slot is looked at twice.
fn make_filter(
    head: protocol::Head,
    kept: &[u8],
    t: usize,
    out: &mut [u8],
) -> Result<usize, Refusal>
    requires { (1 ≤ t) × ((t ≤ top_faults) × ((length kept.now ≡ kept_size) × (packet_room ≤ length out.old))) }
    ensures { record { result = outcome_told result; output = out.new }
        ≡ whole_packet (head_f.print head ++ (candidates_f (shelf t)).print (gather (candidates_in (shelf t) kept.now) (shelf t).servers))
        out.old }
{
    let a = wire::make::put_head(out, 0, head);
    let b = a + 1;
    let n = list::put_list(out, b, kept, t);
    let size = wire::sizes::candidate_size(t as u8);
    wire::make::put_byte(out, a, ((n - b) / size) as u8);
    Ok(n)
}

// The packet of the pending round.
fn make_round(
    round: Round,
    call: protocol::Call,
    kept: &[u8],
    party: Party,
    server: usize,
    out: &mut [u8],
) -> Result<usize, Refusal>
    requires { (1 ≤ party.t) × ((party.t ≤ top_faults) × ((party.client ≤ top_client) × ((1 ≤ server) × ((server ≤ (shelf party.t).servers)
        × ((length kept.now ≡ kept_size) × ((packet_room ≤ length out.old) × (round_number round ≡ call.tally.round))))))) }
    ensures { record { result = outcome_told result; output = out.new } ≡ whole_packet
        (encode (made party.t party.client (view (shelf party.t) call kept.now) server)) out.old }
{
    let head = head_of(call, round.request(), party, server);
    match round {
        Round::Clock | Round::Collect => make_empty(head, out),
        Round::Store => make_store(head, kept, party.t, server, out),
        Round::Complete | Round::Repair => make_chosen(head, kept, party.t, out),
        Round::Filter => make_filter(head, kept, party.t, out),
    }
}

// A refusal, which writes nothing; or the packet's length.
pub fn make_in(
    call: protocol::Call,
    kept: &[u8],
    party: Party,
    server: usize,
    out: &mut [u8],
) -> Result<usize, Refusal>
    ensures { record { result = outcome_told result; output = out.new }
        ≡ core_make party.t party.client server call kept.now out.old }
{
    if kept.len() != wire::kept::KEPT {
        return Err(Refusal::WrongSize);
    }
    let round = refusals::round_to_make(party, server, call, out.len())?;
    make_round(round, call, kept, party, server, out)
}
