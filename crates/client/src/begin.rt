// Beginning a call, and giving it up.
// `as` stands where a number has no `From`; the proof says that it fits.
ghost use Rattle.std.specs.Prelude.{◌≡◌, cond, suc, ◌≤◌, ◌+◌, ◌*◌, eqb, length, replicate};
ghost use Rattle.cluster.specs.Ranges.{top_length, top_number, most_servers};
ghost use Rattle.protocol.specs.Values.{nonce_size};
ghost use Rattle.protocol.specs.View.{nonce_place, candidates_place, candidate_slot, kept_size};
ghost use Rattle.protocol.specs.ClientBytes.{fresh, give_up_def};
ghost use Rattle.protocol.specs.Kinds.{round_number};
ghost use Rattle.protocol.specs.declared.Aborted.TheVariants as aborts;
ghost use Rattle.format.specs.Reading.{put};
ghost use Rattle.client.specs.Answers.{stopped, begun};
ghost use Rattle.client.specs.Core.{core_write, core_read};

use crate::{Party, kept, refusals, rounds};
use cluster::Refusal;
use protocol::rounds::Round;

// What giving up answers, and the call after it. Not one generic type with answers::Answered: no code is the same for both, and it would be no plainer.
#[derive(Clone, Copy)]
pub struct Stopped {
    pub answer: protocol::Aborted,
    pub call: protocol::Call,
}

// What giving up in a round answers.
fn given_up(round: Round) -> protocol::Aborted
    ensures { result ≡ cond (eqb (round_number round) 3) aborts.InComplete aborts.Before }
{
    match round {
        Round::Complete => protocol::Aborted::InComplete,
        Round::Clock | Round::Store | Round::Collect | Round::Filter | Round::Repair => {
            protocol::Aborted::Before
        }
    }
}

// Giving up leaves no call in hand; the call number and the last stamp made stay.
pub fn give_up_in(call: protocol::Call, party: Party) -> Result<Stopped, Refusal>
    ensures { stopped call result ≡ give_up_def party.t party.client call }
{
    let round = refusals::round_to_abort(party, call)?;
    Ok(Stopped {
        answer: given_up(round),
        call: rounds::with_tally(call, rounds::fresh_tally(None)),
    })
}

// The next call, in its first round.
fn next_call(call: protocol::Call, high: u32, length: u16, round: Round) -> protocol::Call
    requires { call.number + 1 ≤ top_number }
    ensures { result ≡ record { number = suc call.number; last = call.last; high = high; length = length; tally = fresh (round_number round) } }
{
    protocol::Call {
        number: call.number + 1,
        high,
        length,
        tally: rounds::fresh_tally(Some(round)),
        ..call
    }
}

// The content and the nonce of a write, into the kept bytes.
fn keep_write(kept: &mut [u8], content: &[u8], nonce: &[u8])
    requires { (length kept.old ≡ kept_size) × ((length content.now ≤ top_length) × (length nonce.now ≡ nonce_size)) }
    ensures { kept.new ≡ put (put kept.old 0 content.now) nonce_place nonce.now }
{
    kept::write_at(kept, 0, content);
    kept::write_at(kept, wire::kept::NONCE, nonce);
}

// Lines 83, 84 and 93.
pub fn begin_write_in(
    call: protocol::Call,
    kept: &mut [u8],
    party: Party,
    content: &[u8],
    nonce: &[u8; cluster::KEY],
) -> Result<protocol::Call, Refusal>
    ensures { begun call result kept.new ≡ core_write party.t party.client call kept.old content.now nonce.now }
{
    if kept.len() != wire::kept::KEPT {
        return Err(Refusal::WrongSize);
    }
    refusals::write_refusal(party, content.len(), call)?;
    keep_write(kept, content, nonce);
    Ok(next_call(call, call.last, content.len() as u16, Round::Clock))
}

// Every candidate's slot becomes blank.
fn clear_slots(kept: &mut [u8])
    requires { length kept.old ≡ kept_size }
    ensures { kept.new ≡ put kept.old candidates_place (replicate (candidate_slot * most_servers) 0) }
{
    let end = wire::kept::CANDIDATES + wire::kept::CANDIDATE_SLOT * cluster::MOST_SERVERS;
    kept[wire::kept::CANDIDATES..end].fill(0);
}

// Lines 137 to 140.
pub fn begin_read_in(
    call: protocol::Call,
    kept: &mut [u8],
    party: Party,
) -> Result<protocol::Call, Refusal>
    ensures { begun call result kept.new ≡ core_read party.t party.client call kept.old }
{
    if kept.len() != wire::kept::KEPT {
        return Err(Refusal::WrongSize);
    }
    refusals::read_refusal(party, call)?;
    clear_slots(kept);
    Ok(next_call(call, call.high, call.length, Round::Collect))
}
