// How far the round in hand has come, for a host that would not make a packet to see it.
ghost use Rattle.std.specs.Prelude.{◌≡◌};
ghost use Rattle.cluster.specs.Ranges.{most_servers};
ghost use Rattle.protocol.specs.Rules.{count_to};
ghost use Rattle.protocol.specs.View.{marked};
ghost use Rattle.embed.specs.Packing.{packed_told};
ghost use Rattle.embed.specs.Rounds.{bits_to, round_now, round_in};

use super::pack::{Told, need, pack};
use cluster::Refusal;
use protocol::rounds::Round;

// A bit for each server that is marked.
fn bits(marks: [u8; cluster::MOST_SERVERS]) -> u32
    ensures { result ≡ bits_to most_servers (marked marks) }
{
    let mut sum = 0;
    for (i, mark) in marks.iter().enumerate() {
        if *mark != 0 {
            sum += 1 << i;
        }
    }
    sum
}

// How many servers are marked.
fn count(marks: [u8; cluster::MOST_SERVERS]) -> u16
    ensures { result ≡ count_to most_servers (marked marks) }
{
    let mut sum = 0;
    for mark in marks {
        if mark != 0 {
            sum += 1;
        }
    }
    sum
}

// The round in hand, or 0.
#[tactic(auto, using(crate::proofs::RoundTold::rounds))]
fn round_of(call: protocol::Call) -> u8
    ensures { result ≡ round_now call }
{
    Round::of(call.tally.round).map_or(0, Round::number)
}

#[tactic(auto, unfolding(crate::specs::Rounds::round_in, crate::specs::Rounds::round_told, crate::specs::Clients::sized))]
fn round(state: &[u8]) -> Result<Told, Refusal>
    ensures { packed_told result ≡ round_in state.now }
{
    need(state.len() == super::clients::CLIENT)?;
    let call = state::read(state);
    Ok(Told {
        result: round_of(call),
        number: bits(call.tally.marks),
        count: count(call.tally.marks),
    })
}

pub fn cendrulas_client_round(state: &[u8]) -> u64
    ensures { result ≡ round_in state.now }
{
    pack(round(state))
}
