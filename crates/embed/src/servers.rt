// The server over its lent memory.
// `as` stands where a number has no `From`; the proof says that it fits.
ghost use Rattle.std.specs.Prelude.{◌≡◌, not, ◌&&◌, eqb, drop, get_or};
ghost use Rattle.protocol.specs.Values.{rank};
ghost use Rattle.protocol.specs.View.{stamp_at_def};
ghost use Rattle.protocol.specs.ServerBytes.{blank_step};
ghost use Rattle.protocol.specs.Memory.{latest_place};
ghost use Rattle.server.specs.Answers.{count_place};
ghost use Rattle.embed.specs.Packing.{packed, packed_told};
ghost use Rattle.embed.specs.Servers.{take_by};

use super::pack::{Told, array, counted, pack};
use cluster::Refusal;

fn blank(memory: &mut [u8], t: usize, server: usize) -> Result<Told, Refusal>
    ensures value { packed_told result ≡ packed (blank_step memory.old t server).result.number 0 0 0 }
    ensures memory_after { memory.new ≡ (blank_step memory.old t server).memory }
{
    server::blank::blank(memory, t, server)?;
    Ok(counted(0))
}

pub fn cendrulas_server_blank(memory: &mut [u8], t: usize, server: usize) -> u64
    ensures value { result ≡ packed (blank_step memory.old t server).result.number 0 0 0 }
    ensures memory_after { memory.new ≡ (blank_step memory.old t server).memory }
{
    pack(blank(memory, t, server))
}

// The rank of a memory's latest candidate.
fn latest_rank(memory: &[u8]) -> u64
    ensures { result ≡ rank (stamp_at_def (drop latest_place memory.now)) }
{
    wire::values::rank_at(wire::bytes::rest(memory, server::memory::LATEST))
}

// Whether a memory has another count of stored writes than before, or another latest rank: a write that is kept adds one to the count,
// a candidate that is raised has a higher rank, and nothing else changes a byte.
fn changed(memory: &[u8], count: u8, latest: u64) -> bool
    ensures { result ≡ not (eqb (get_or memory.now count_place 0) count
        && eqb (rank (stamp_at_def (drop latest_place memory.now))) latest) }
{
    wire::bytes::byte_at(memory, server::memory::COUNT) != count || latest_rank(memory) != latest
}

#[tactic(auto, unfolding(crate::specs::Servers::take_by, crate::specs::Servers::key_sized))]
fn take(memory: &mut [u8], key: &[u8], packet: &[u8], out: &mut [u8]) -> Result<Told, Refusal>
    ensures { record { answer = packed_told result; memory = memory.new; output = out.new }
        ≡ take_by memory.old key.now packet.now out.old }
{
    let key = array(key)?;
    let writes = wire::bytes::byte_at(memory, server::memory::COUNT);
    let latest = latest_rank(memory);
    // No more than a packet needs is lent on, so that a count fits its 16 bits.
    let n = out.len().min(cluster::PACKET_ROOM);
    let count = server::take::take(memory, &key, packet, &mut out[..n])?;
    Ok(Told {
        result: u8::from(changed(memory, writes, latest)),
        number: 0,
        count: count as u16,
    })
}

pub fn cendrulas_server_take(memory: &mut [u8], key: &[u8], packet: &[u8], out: &mut [u8]) -> u64
    ensures { record { answer = result; memory = memory.new; output = out.new }
        ≡ take_by memory.old key.now packet.now out.old }
{
    pack(take(memory, key, packet, out))
}
