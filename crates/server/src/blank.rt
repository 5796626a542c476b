// Making a server blank, and its latest candidate only.
// `as` stands where a number has no `From`; the proof says that it fits.
ghost use Rattle.std.specs.Prelude.{◌≡◌, length, replicate};
ghost use Rattle.cluster.specs.Refusals.{done_told};
ghost use Rattle.protocol.specs.ServerBytes.{blank_step};
ghost use Rattle.server.specs.Blank.{blank_latest_def};

use crate::memory::{FAULTS, LATEST, SERVER};
use cluster::Refusal;

// No byte but 00h.
pub fn clear(memory: &mut [u8])
    ensures { memory.new ≡ replicate (length memory.old) 0 }
{
    memory.fill(0);
}

// A new server, blank, whatever the memory held.
pub fn blank(memory: &mut [u8], t: usize, server: usize) -> Result<(), Refusal>
    ensures { record { result = done_told result; memory = memory.new } ≡ blank_step memory.old t server }
{
    if memory.len() != cluster::MEMORY {
        return Err(Refusal::MemorySize);
    }
    if cluster::outside(1, cluster::TOP_FAULTS, t) {
        return Err(Refusal::Faults);
    }
    if cluster::outside(1, cluster::servers(t as u8), server) {
        return Err(Refusal::Server);
    }
    clear(memory);
    memory[FAULTS] = t as u8;
    memory[SERVER] = server as u8;
    Ok(())
}

// The latest candidate becomes blank, and the history stays.
pub fn blank_latest(memory: &mut [u8]) -> Result<(), Refusal>
    ensures { record { result = done_told result; memory = memory.new } ≡ blank_latest_def memory.old }
{
    if memory.len() != cluster::MEMORY {
        return Err(Refusal::MemorySize);
    }
    let opened = crate::memory::open(memory).ok_or(Refusal::Memory)?;
    let zeros = [0u8; wire::kept::CANDIDATE_SLOT];
    let candidate = wire::bytes::part(&zeros, 0, wire::sizes::candidate_size(opened.t));
    wire::make::put(memory, LATEST, candidate);
    Ok(())
}
