// A reply is taken: the tests that refuse it, and then its round's step.
// `as` stands where a number has no `From`; the proof says that it fits.
ghost use Rattle.std.specs.Prelude.{◌≡◌, false, length};
ghost use Rattle.cluster.specs.Config.{shelf};
ghost use Rattle.protocol.specs.Client.{bad_faults, bad_client_def, of_write};
ghost use Rattle.protocol.specs.View.{kept_size};
ghost use Rattle.protocol.specs.ClientBytes.{awaited};
ghost use Rattle.protocol.specs.Kinds.{round_number};
ghost use Rattle.wire.specs.Reads.{TookPacket};
ghost use Rattle.client.specs.Answers.{answered};
ghost use Rattle.client.specs.Core.{core_take};
ghost use Rattle.client.specs.Steps.{Ready, TakesAs};

use crate::answers::Answered;
use crate::{Party, clock, filter, kept, reads, refusals, replies, writes};
use cluster::Refusal;
use protocol::codes::Code;
use protocol::rounds::Round;
use wire::packet::Passed;

// A reply that the pending round awaits. Clock tests the output's room itself, after the stamp's number.
fn take_round(
    round: Round,
    call: protocol::Call,
    kept: &mut [u8],
    party: Party,
    writers: &[u8; cluster::KEY],
    keys: &[[u8; cluster::KEY]; cluster::MOST_SERVERS],
    passed: Passed,
    reply: &[u8],
    out: &mut [u8],
) -> Result<Answered, Refusal>
    requires { Ready party.t party.client call reply.now passed.head × ((round_number round ≡ call.tally.round) × ((length kept.old ≡ kept_size)
        × TookPacket reply.now passed.head passed.label passed.number)) }
    ensures { TakesAs party.t party.client writers.now keys.now call kept.old reply.now
        out.old result kept.new out.new }
{
    if round != Round::Clock && out.len() < cluster::CONTENT_ROOM {
        return Err(Refusal::Room);
    }
    let server = usize::from(passed.head.server);
    match round {
        Round::Clock => {
            clock::take_clock(call, kept, party, writers, keys, passed, reply, out.len())
        }
        Round::Store => {
            let code = Code::of(passed.number as u8).unwrap();
            Ok(writes::take_store(call, party.t, server, code))
        }
        Round::Complete => Ok(writes::take_complete(call, kept, party.t, server)),
        Round::Collect => {
            let body = wire::bytes::rest(reply, wire::sizes::HEAD);
            Ok(reads::take_collect(call, kept, party.t, server, body))
        }
        Round::Filter => Ok(filter::take_filter(call, kept, party, passed.head, reply, out)),
        Round::Repair => Ok(reads::take_repair(call, kept, party.t, server, out)),
    }
}

// 7, 8, 12, 13; then the round's step.
fn take_reply(
    call: protocol::Call,
    kept: &mut [u8],
    party: Party,
    writers: &[u8; cluster::KEY],
    keys: &[[u8; cluster::KEY]; cluster::MOST_SERVERS],
    reply: &[u8],
    out: &mut [u8],
) -> Result<Answered, Refusal>
    requires { (bad_faults (shelf party.t) ≡ false) × ((bad_client_def (of_write (awaited call)) party.client ≡ false)
        × (length kept.old ≡ kept_size)) }
    ensures { TakesAs party.t party.client writers.now keys.now call kept.old reply.now
        out.old result kept.new out.new }
{
    let passed = wire::packet::read_packet(reply).ok_or(Refusal::Layout)?;
    let round = replies::round_to_take(passed, call, party)?;
    take_round(round, call, kept, party, writers, keys, passed, reply, out)
}

// A reply is taken, or refused: then nothing changes.
pub fn take_in(
    call: protocol::Call,
    kept: &mut [u8],
    party: Party,
    writers: &[u8; cluster::KEY],
    keys: &[[u8; cluster::KEY]; cluster::MOST_SERVERS],
    reply: &[u8],
    out: &mut [u8],
) -> Result<Answered, Refusal>
    ensures { answered call result kept.new out.new
        ≡ core_take party.t party.client writers.now keys.now call kept.old reply.now
        out.old }
{
    if kept.len() != wire::kept::KEPT {
        return Err(Refusal::WrongSize);
    }
    if cluster::outside(1, cluster::TOP_FAULTS, party.t) {
        return Err(Refusal::Faults);
    }
    if refusals::bad_client(refusals::pending(call), party.client) {
        return Err(Refusal::Client);
    }
    take_reply(call, kept, party, writers, keys, reply, out)
}
