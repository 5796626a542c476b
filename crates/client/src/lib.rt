// The client: a pending call, the packets of its rounds and what their replies do.
// A call's small state is lent as `protocol::Call`, its bulk as the kept bytes; every value of both has a meaning.
#![tactic(auto)]

ghost use Rattle.std.specs.Prelude.{◌≡◌};
ghost use Rattle.cluster.specs.Refusals.{done_told, outcome_told};
ghost use Rattle.protocol.specs.Primitives.{real};
ghost use Rattle.protocol.specs.Answers.{taken_told, aborted_told};
ghost use Rattle.protocol.specs.ClientBytes.{begin_write_def, begin_read_def, client_make, client_take, give_up_def};
ghost use Rattle.protocol.specs.ClientBytes.{new_call_def};

use cluster::Refusal;

pub mod refusals; // which number refuses a step
mod rounds; // the tally of a round
mod kept; // the kept bytes: what is read and written there
mod answers; // what a reply leads to
mod replies; // whether a packet is an awaited reply
mod stamps; // stamps and tags
mod list; // the list of filter
pub mod packets; // the packet of the round
mod shares; // the shares of a write
mod prepare; // the end of clock
mod clock; // the first round of a write
mod writes; // the rounds of a write
mod reads; // the rounds of a read
mod filter; // the filter round
pub mod begin; // beginning a call and giving it up
pub mod taking; // a reply is taken

// Which client takes a step: document 01's "Each step gets the shelf's t, its party's number".
#[derive(Clone, Copy)]
pub struct Party {
    pub t: usize,
    pub client: usize,
}

// The state of a client that has begun no call.
const NEW: protocol::Call = protocol::Call {
    number: 0,
    last: 0,
    high: 0,
    length: 0,
    tally: protocol::Tally {
        round: 0,
        count: 0,
        marks: [0; cluster::MOST_SERVERS],
    },
};

// A client that has begun no call: with it, and any kept bytes, the runs of the theorem start.
pub fn new_call() -> protocol::Call
    ensures { result ≡ new_call_def }
{
    NEW
}

// A write begins.
pub fn begin_write(
    call: &mut protocol::Call,
    kept: &mut [u8; wire::kept::KEPT],
    party: Party,
    content: &[u8],
    nonce: &[u8; cluster::KEY],
) -> Result<(), Refusal>
    ensures { record { result = done_told result; call = call.new; kept = kept.new }
        ≡ begin_write_def party.t party.client call.old kept.old content.now nonce.now }
{
    *call = begin::begin_write_in(*call, kept, party, content, nonce)?;
    Ok(())
}

// A read begins.
pub fn begin_read(
    call: &mut protocol::Call,
    kept: &mut [u8; wire::kept::KEPT],
    party: Party,
) -> Result<(), Refusal>
    ensures { record { result = done_told result; call = call.new; kept = kept.new }
        ≡ begin_read_def party.t party.client call.old kept.old }
{
    *call = begin::begin_read_in(*call, kept, party)?;
    Ok(())
}

// A reply is taken.
pub fn take(
    call: &mut protocol::Call,
    kept: &mut [u8; wire::kept::KEPT],
    party: Party,
    writers: &[u8; cluster::KEY],
    keys: &[[u8; cluster::KEY]; cluster::MOST_SERVERS],
    reply: &[u8],
    out: &mut [u8],
) -> Result<protocol::Taken, Refusal>
    ensures { record { answer = taken_told result; call = call.new; kept = kept.new; output = out.new }
        ≡ client_take real party.t party.client writers.now keys.now call.old kept.old
        reply.now out.old }
{
    let taken = taking::take_in(*call, kept, party, writers, keys, reply, out)?;
    *call = taken.call;
    Ok(taken.answer)
}

// The pending call is given up.
pub fn give_up(call: &mut protocol::Call, party: Party) -> Result<protocol::Aborted, Refusal>
    ensures { record { answer = aborted_told result; call = call.new } ≡ give_up_def party.t party.client call.old }
{
    let stopped = begin::give_up_in(*call, party)?;
    *call = stopped.call;
    Ok(stopped.answer)
}

// The packet of the pending round for a server.
pub fn make(
    call: protocol::Call,
    kept: &[u8; wire::kept::KEPT],
    party: Party,
    server: usize,
    out: &mut [u8],
) -> Result<usize, Refusal>
    ensures { record { result = outcome_told result; output = out.new }
        ≡ client_make party.t party.client server call kept.now out.old }
{
    packets::make_in(call, kept, party, server, out)
}
