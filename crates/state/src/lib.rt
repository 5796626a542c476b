// A client's small state as bytes, for callers that keep it in lent memory. Every run of bytes has a meaning.
// `as` stands where a number has no `From`; the proof says that it fits.
#![tactic(auto)]

ghost use Rattle.std.specs.Prelude.{◌≡◌, ◌<◌, length};
ghost use Rattle.wire.specs.Make.{placed};
ghost use Rattle.state.specs.State.{marks_at_def, length_at, tally_at_def, numbers, call_at, call_bytes};

// Bytes of a state, and the place of the kept bytes where they follow it in one run.
pub const SIZE: usize = NUMBERS + cluster::MOST_SERVERS;

pub const KEPT_PLACE: usize = 64;

// The call's number stands first; the places of the last stamp's number, of the highest one seen, of the content's length, of the round and of the
// count of replies; and the bytes of all these, which the marks follow.
const LAST_PLACE: usize = wire::sizes::NUMBER;

const HIGH_PLACE: usize = LAST_PLACE + wire::sizes::NUMBER;

const LENGTH_PLACE: usize = HIGH_PLACE + wire::sizes::NUMBER;

const ROUND_PLACE: usize = LENGTH_PLACE + wire::sizes::LENGTH;

const COUNT_PLACE: usize = ROUND_PLACE + 1;

const NUMBERS: usize = COUNT_PLACE + 1;

// Which servers have replied.
#[tactic(auto, unfolding(crate::specs::State::marks_at_def))]
fn marks_at(bytes: &[u8]) -> [u8; cluster::MOST_SERVERS]
    ensures { result ≡ marks_at_def bytes.now }
{
    wire::bytes::first_bytes(wire::bytes::rest(bytes, NUMBERS))
}

// The length of the content.
fn length_at(bytes: &[u8]) -> u16
    ensures { result ≡ length_at bytes.now }
{
    wire::bytes::number2(wire::bytes::rest(bytes, LENGTH_PLACE)) as u16
}

#[tactic(auto, unfolding(crate::specs::State::tally_at_def))]
fn tally_at(bytes: &[u8]) -> protocol::Tally
    ensures { result ≡ tally_at_def bytes.now }
{
    protocol::Tally {
        round: wire::bytes::byte_at(bytes, ROUND_PLACE),
        count: wire::bytes::byte_at(bytes, COUNT_PLACE),
        marks: marks_at(bytes),
    }
}

// The state in bytes; a byte that is missing is 0.
#[tactic(auto, unfolding(crate::specs::State::call_at))]
pub fn read(bytes: &[u8]) -> protocol::Call
    ensures { result ≡ call_at bytes.now }
{
    protocol::Call {
        number: wire::bytes::number4(bytes),
        last: wire::bytes::number4(wire::bytes::rest(bytes, LAST_PLACE)),
        high: wire::bytes::number4(wire::bytes::rest(bytes, HIGH_PLACE)),
        length: length_at(bytes),
        tally: tally_at(bytes),
    }
}

// What stands before the marks.
fn numbers_of(call: protocol::Call) -> [u8; NUMBERS]
    ensures { result ≡ numbers call }
{
    let mut bytes = [0; NUMBERS];
    wire::make::put_number4(&mut bytes, 0, call.number);
    wire::make::put_number4(&mut bytes, LAST_PLACE, call.last);
    wire::make::put_number4(&mut bytes, HIGH_PLACE, call.high);
    wire::make::put_number2(&mut bytes, LENGTH_PLACE, call.length);
    wire::make::put_byte(&mut bytes, ROUND_PLACE, call.tally.round);
    wire::make::put_byte(&mut bytes, COUNT_PLACE, call.tally.count);
    bytes
}

// The state's bytes at the start of others; nothing where there is no room.
pub fn put(bytes: &mut [u8], call: protocol::Call)
    ensures { bytes.new ≡ (placed bytes.old 0 (call_bytes call)).output }
{
    if bytes.len() < SIZE {
        return;
    }
    let n = wire::make::put(bytes, 0, &numbers_of(call));
    wire::make::put(bytes, n, &call.tally.marks);
}
