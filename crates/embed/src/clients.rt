// The client over one lent run of bytes: the small state, then the kept bytes. A refused call leaves them as they were.
// `as` stands where a number has no `From`; the proof says that it fits.
ghost use Rattle.std.specs.Prelude.{◌≡◌, ◌<◌, Ok};
ghost use Rattle.protocol.specs.Answers.{refusals};
ghost use Rattle.embed.specs.Packing.{packed_told, packed_answer};
ghost use Rattle.embed.specs.Clients.{write_in_def, read_in_def, give_up_in_def, make_in_def, take_in_def};

use super::keys::keys_of;
use super::pack::{Told, array, counted, need, pack};
use client::Party;
use cluster::Refusal;

// The bytes of a whole state.
pub(crate) const CLIENT: usize = state::KEPT_PLACE + wire::kept::KEPT;

#[tactic(auto, unfolding(crate::specs::Clients::write_in_def, crate::specs::Clients::sized_with, crate::specs::Clients::begun_in, client::specs::Core::core_write))]
fn begin_write(
    state: &mut [u8],
    party: Party,
    content: &[u8],
    nonce: &[u8],
) -> Result<Told, Refusal>
    ensures { record { answer = packed_told result; state = state.new } ≡ write_in_def state.old party.t party.client
        content.now nonce.now }
{
    need(state.len() == CLIENT)?;
    let nonce = array(nonce)?;
    let call = client::begin::begin_write_in(
        state::read(state),
        &mut state[state::KEPT_PLACE..],
        party,
        content,
        &nonce,
    )?;
    state::put(state, call);
    Ok(counted(0))
}

pub fn cendrulas_client_begin_write(
    state: &mut [u8],
    t: usize,
    client: usize,
    content: &[u8],
    nonce: &[u8],
) -> u64
    ensures { record { answer = result; state = state.new } ≡ write_in_def state.old t client content.now
        nonce.now }
{
    pack(begin_write(state, Party { t, client }, content, nonce))
}

#[tactic(auto, unfolding(crate::specs::Clients::read_in_def, crate::specs::Clients::sized, crate::specs::Clients::begun_in, client::specs::Core::core_read))]
fn begin_read(state: &mut [u8], party: Party) -> Result<Told, Refusal>
    ensures { record { answer = packed_told result; state = state.new } ≡ read_in_def state.old party.t party.client }
{
    need(state.len() == CLIENT)?;
    let call = client::begin::begin_read_in(
        state::read(state),
        &mut state[state::KEPT_PLACE..],
        party,
    )?;
    state::put(state, call);
    Ok(counted(0))
}

pub fn cendrulas_client_begin_read(state: &mut [u8], t: usize, client: usize) -> u64
    ensures { record { answer = result; state = state.new } ≡ read_in_def state.old t client }
{
    pack(begin_read(state, Party { t, client }))
}

// An answer that tells no refusal: its writer and its result share one byte.
#[tactic(auto, unfolding(crate::specs::Packing::packed_answer))]
fn told(a: protocol::Answer) -> Told
    requires { a.result < refusals }
    ensures { packed_told (Ok result) ≡ packed_answer a }
{
    Told {
        result: 16 * (a.writer % 16) + (a.result % 16) as u8,
        number: a.number,
        count: a.length,
    }
}

#[tactic(auto, unfolding(crate::specs::Clients::give_up_in_def, crate::specs::Clients::sized, crate::specs::Clients::stopped_in))]
fn give_up(state: &mut [u8], party: Party) -> Result<Told, Refusal>
    ensures { record { answer = packed_told result; state = state.new } ≡ give_up_in_def state.old party.t party.client }
{
    need(state.len() == CLIENT)?;
    let stopped = client::begin::give_up_in(state::read(state), party)?;
    state::put(state, stopped.call);
    Ok(told(protocol::Answer::from(Ok(stopped.answer))))
}

pub fn cendrulas_client_give_up(state: &mut [u8], t: usize, client: usize) -> u64
    ensures { record { answer = result; state = state.new } ≡ give_up_in_def state.old t client }
{
    pack(give_up(state, Party { t, client }))
}

// The packet of the pending round.
#[tactic(auto, unfolding(crate::specs::Clients::make_in_def, crate::specs::Clients::sized, client::specs::Core::core_make))]
fn make(state: &[u8], party: Party, server: usize, out: &mut [u8]) -> Result<Told, Refusal>
    ensures { record { answer = packed_told result; output = out.new } ≡ make_in_def state.now party.t party.client server
        out.old }
{
    need(state.len() == CLIENT)?;
    // No more than a packet needs is lent on, so that a count fits its 16 bits.
    let n = out.len().min(cluster::PACKET_ROOM);
    let count = client::packets::make_in(
        state::read(state),
        &state[state::KEPT_PLACE..],
        party,
        server,
        &mut out[..n],
    )?;
    Ok(counted(count as u16))
}

pub fn cendrulas_client_make(
    state: &[u8],
    t: usize,
    client: usize,
    server: usize,
    out: &mut [u8],
) -> u64
    ensures { record { answer = result; output = out.new } ≡ make_in_def state.now t client server out.old }
{
    pack(make(state, Party { t, client }, server, out))
}

#[tactic(auto, unfolding(crate::specs::Clients::take_in_def, crate::specs::Clients::sized_for, crate::specs::Clients::took_in, client::specs::Core::core_take))]
fn take(
    state: &mut [u8],
    party: Party,
    writers: &[u8],
    keys: &[u8],
    packet: &[u8],
    out: &mut [u8],
) -> Result<Told, Refusal>
    ensures { record { answer = packed_told result; state = state.new; output = out.new }
        ≡ take_in_def state.old party.t party.client writers.now keys.now packet.now out.old }
{
    need(state.len() == CLIENT)?;
    let writers = array(writers)?;
    let keys = keys_of(keys)?;
    let taken = client::taking::take_in(
        state::read(state),
        &mut state[state::KEPT_PLACE..],
        party,
        &writers,
        &keys,
        packet,
        out,
    )?;
    state::put(state, taken.call);
    Ok(told(protocol::Answer::from(Ok(taken.answer))))
}

pub fn cendrulas_client_take(
    state: &mut [u8],
    t: usize,
    client: usize,
    writers: &[u8],
    keys: &[u8],
    packet: &[u8],
    out: &mut [u8],
) -> u64
    ensures { record { answer = result; state = state.new; output = out.new }
        ≡ take_in_def state.old t client writers.now keys.now packet.now out.old }
{
    pack(take(state, Party { t, client }, writers, keys, packet, out))
}
