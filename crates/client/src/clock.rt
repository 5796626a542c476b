// The clock round: the highest stamp number that a quorum knows, and the write under the next one.
// `as` stands where a number has no `From`; the proof says that it fits.
ghost use Rattle.std.specs.Prelude.{◌≡◌, List, [], ◌∷◌, ◌&&◌, ℕ, suc, ◌≤◌, ◌<◌, leb, ltb, length};
ghost use Rattle.cluster.specs.Refusals.{refuse, first_of, number_told};
ghost use Rattle.cluster.specs.Ranges.{top_faults, top_client, top_number, content_room};
ghost use Rattle.protocol.specs.declared.Taken.TheVariants as taken;
ghost use Rattle.protocol.specs.View.{kept_size};
ghost use Rattle.protocol.specs.ClientBytes.{fresh};
ghost use Rattle.wire.specs.Reads.{TookPacket};
ghost use Rattle.client.specs.Steps.{write_made, Ready, TakesAs};

use crate::answers::Answered;
use crate::{Party, answers, prepare, rounds, stamps};
use cluster::Refusal;
use protocol::rounds::Round;

// Store begins, with the number of the stamp made.
fn enter_store(call: protocol::Call, high: u32) -> protocol::Call
    requires { high < top_number }
    ensures { result ≡ record { number = call.number; last = suc high; high = call.high; length = call.length; tally = fresh 2 } }
{
    protocol::Call {
        last: high + 1,
        tally: rounds::fresh_tally(Some(Round::Store)),
        ..call
    }
}

// The stamp's number would pass its top, and the reply ends the round; or the output has too little room.
fn clock_refusal(ends: bool, high: u32, room: usize) -> Result<(), Refusal>
    ensures { number_told result ≡ first_of (refuse 14 (ends && leb top_number high) ∷ refuse 15 (ltb room content_room) ∷ []) }
{
    if ends && cluster::TOP_NUMBER <= high as usize {
        return Err(Refusal::Numbers);
    }
    if room < cluster::CONTENT_ROOM {
        return Err(Refusal::Room);
    }
    Ok(())
}

// The reply that ends the round: the write is made under the next number.
fn end_clock(
    call: protocol::Call,
    kept: &mut [u8],
    party: Party,
    writers: &[u8; cluster::KEY],
    keys: &[[u8; cluster::KEY]; cluster::MOST_SERVERS],
    high: u32,
) -> Answered
    requires { (1 ≤ party.t) × ((party.t ≤ top_faults) × ((party.client ≤ top_client) × ((length kept.old ≡ kept_size) × (high < top_number)))) }
    ensures { (result ≡ record {
      answer = taken.More;
      call = record {
        number = call.number;
        last = suc high;
        high = call.high;
        length =
            call.length;
        tally = fresh 2;
      };
    })
        × (kept.new ≡ write_made party.t party.client writers.now keys.now call kept.old (suc high)) }
{
    prepare::prepare(kept, call, party, writers, keys, high + 1);
    answers::more(enter_store(call, high))
}

// Lines 94 to 100.
pub(crate) fn take_clock(
    call: protocol::Call,
    kept: &mut [u8],
    party: Party,
    writers: &[u8; cluster::KEY],
    keys: &[[u8; cluster::KEY]; cluster::MOST_SERVERS],
    passed: wire::packet::Passed,
    reply: &[u8],
    room: usize,
) -> Result<Answered, Refusal>
    requires { Ready party.t party.client call reply.now passed.head × ((call.tally.round ≡ 1) × ((length kept.old ≡ kept_size)
        × TookPacket reply.now passed.head passed.label passed.number)) }
    ensures { (output : List ℕ) → length output ≡ room
        → TakesAs party.t party.client writers.now keys.now call kept.old reply.now
        output result kept.new output }
{
    let body = wire::bytes::rest(reply, wire::sizes::HEAD);
    let high = stamps::higher(writers, call.high, passed.label.number, body);
    let noted = answers::note_reply(
        protocol::Call { high, ..call },
        party.t,
        usize::from(passed.head.server),
    );
    let ends = rounds::is_full(party.t, noted.tally);
    clock_refusal(ends, high, room)?;
    if ends {
        return Ok(end_clock(call, kept, party, writers, keys, high));
    }
    Ok(answers::more(noted))
}
