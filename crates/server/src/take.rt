// Taking a packet: refused with the lowest number that applies, or answered.
ghost use Rattle.std.specs.Prelude.{◌≡◌, false, not, ◌||◌, ◌≤◌, ltb, eqb};
ghost use Rattle.cluster.specs.Ranges.{top_writer};
ghost use Rattle.cluster.specs.Refusals.{number_told, outcome_told};
ghost use Rattle.protocol.specs.Kinds.{kind_number};
ghost use Rattle.protocol.specs.Server.{barred};
ghost use Rattle.protocol.specs.Primitives.{real};
ghost use Rattle.protocol.specs.ServerBytes.{server_take};
ghost use Rattle.wire.specs.Places.{packet_at, body_number};
ghost use Rattle.server.specs.Answers.{EveryPacket, NumberAt, AnswersAny};

use crate::memory::{Opened, open};
use cluster::Refusal;
use protocol::kinds::Kind;
use wire::packet::{Passed, read_packet};

// Whether a client may not send a store or complete of this stamp: only a writer may, and only with a stamp of its own.
fn foreign(client: u8, label: protocol::Label) -> bool
    ensures { result ≡ (ltb top_writer client || not (eqb label.writer client)) }
{
    cluster::TOP_WRITER < usize::from(client) || label.writer != client
}

// Refusal 9: replies, and requests that only a writer may send.
fn barred(passed: Passed) -> bool
    requires { kind_number passed.kind ≡ passed.head.kind }
    ensures { EveryPacket passed.head passed.label (λ p. result ≡ barred passed.head.client p.body) }
{
    let client = passed.head.client;
    match passed.kind {
        Kind::Collect | Kind::Filter | Kind::Repair => false,
        Kind::Clock => cluster::TOP_WRITER < usize::from(client),
        Kind::Store | Kind::Complete => foreign(client, passed.label),
        Kind::ClockReply
        | Kind::StoreReply
        | Kind::CompleteReply
        | Kind::CollectReply
        | Kind::FilterReply
        | Kind::RepairReply => true,
    }
}

// A packet that was let through is for this server, from a client that may send it, and there is room for the reply: else 8, 9 or 15.
fn accept(passed: Passed, opened: Opened, room: usize) -> Result<(), Refusal>
    requires { kind_number passed.kind ≡ passed.head.kind }
    ensures { EveryPacket passed.head passed.label (λ p. NumberAt opened p room (number_told result)) }
{
    let head = passed.head;
    if head.t != opened.t || head.server != opened.server {
        return Err(Refusal::Addressee);
    }
    if barred(passed) {
        return Err(Refusal::Sender);
    }
    if room < cluster::PACKET_ROOM {
        return Err(Refusal::Room);
    }
    Ok(())
}

// The answer to a request; accept refused replies.
fn answer(
    memory: &mut [u8],
    key: [u8; cluster::KEY],
    passed: Passed,
    packet: &[u8],
    opened: Opened,
    out: &mut [u8],
) -> Result<usize, Refusal>
    requires server { 1 ≤ opened.server }
    requires kind { kind_number passed.kind ≡ passed.head.kind }
    requires number { passed.number ≡ body_number (packet_at passed.head packet.now).body }
    requires sent { barred passed.head.client (packet_at passed.head packet.now).body ≡ false }
    ensures { AnswersAny memory.old key packet.now out.old passed.head opened
        (record { result = outcome_told result; memory = memory.new; output = out.new }) }
{
    let head = passed.head;
    match passed.kind {
        Kind::Clock => crate::answers::clock(memory, head, out),
        Kind::Store => crate::store::store(memory, head, packet, opened, out),
        Kind::Complete => crate::answers::complete(memory, head, packet, out),
        Kind::Collect => crate::answers::collect(memory, head, out),
        Kind::Filter => crate::filter::filter(memory, key, passed, packet, opened, out),
        Kind::Repair => crate::repair::repair(memory, key, head, packet, opened, out),
        Kind::ClockReply
        | Kind::StoreReply
        | Kind::CompleteReply
        | Kind::CollectReply
        | Kind::FilterReply
        | Kind::RepairReply => unreachable!(),
    }
}

// A packet to this server, in its memory, with its key: 1, 2, 7, 8, 9, 15, or the reply.
pub fn take(
    memory: &mut [u8],
    key: &[u8; cluster::KEY],
    packet: &[u8],
    out: &mut [u8],
) -> Result<usize, Refusal>
    ensures { record { result = outcome_told result; memory = memory.new; output = out.new }
        ≡ server_take real memory.old key.now packet.now out.old }
{
    if memory.len() != cluster::MEMORY {
        return Err(Refusal::MemorySize);
    }
    let opened = open(memory).ok_or(Refusal::Memory)?;
    let passed = read_packet(packet).ok_or(Refusal::Layout)?;
    accept(passed, opened, out.len())?;
    answer(memory, *key, passed, packet, opened, out)
}
