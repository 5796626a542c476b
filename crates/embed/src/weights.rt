// The weights of restoring, and restoring by them.
// `as` stands where a number has no `From`; the proof says that it fits.
ghost use Rattle.std.specs.Prelude.{◌≡◌};
ghost use Rattle.embed.specs.Packing.{packed_told};
ghost use Rattle.embed.specs.Coding.{outcome_of};
ghost use Rattle.embed.specs.Weights.{weights_out, weighed_by};

use super::pack::{Told, array, counted, need, pack};
use cluster::Refusal;

#[tactic(auto, using(crate::proofs::Laws::at_refusal), unfolding(crate::specs::Weights::weights_out, crate::specs::Weights::weights_export_refusal, erasure::specs::Weights::weights_step))]
fn weights(t: usize, servers: &[usize], used: &mut [u8], rows: &mut [u8]) -> Result<Told, Refusal>
    ensures { record { answer = packed_told result; used = used.new; rows = rows.new }
        ≡ weights_out t servers.now used.old rows.old }
{
    need(used.len() >= erasure::WIDTH)?;
    need(rows.len() >= erasure::ROWS)?;
    let made = erasure::weights(t, servers)?;
    let k = made.count;
    used[..k].copy_from_slice(&made.servers[..k]);
    rows[..k * k].copy_from_slice(&made.rows[..k * k]);
    Ok(counted(k as u16))
}

pub fn cendrulas_weights(t: usize, servers: &[usize], used: &mut [u8], rows: &mut [u8]) -> u64
    ensures { record { answer = result; used = used.new; rows = rows.new }
        ≡ weights_out t servers.now used.old rows.old }
{
    pack(weights(t, servers, used, rows))
}

// Rows that are cut short are refused by their length.
#[tactic(auto, using(crate::proofs::Laws::at_refusal), unfolding(crate::specs::Weights::weighed_by))]
fn restore_weighed(
    t: usize,
    length: usize,
    rows: &[u8],
    fragments: &[u8],
    out: &mut [u8],
) -> Result<Told, Refusal>
    ensures value { packed_told result ≡ outcome_of (weighed_by t length rows.now fragments.now out.old).0 }
    ensures out_after { out.new ≡ (weighed_by t length rows.now fragments.now out.old).1 }
{
    let rows = array(&rows[..rows.len().min(erasure::ROWS)])?;
    let count = erasure::restore_weighed(t, length, rows, fragments, out)?;
    Ok(counted(count as u16))
}

pub fn cendrulas_restore_weighed(
    t: usize,
    length: usize,
    rows: &[u8],
    fragments: &[u8],
    out: &mut [u8],
) -> u64
    ensures value { result ≡ outcome_of (weighed_by t length rows.now fragments.now out.old).0 }
    ensures out_after { out.new ≡ (weighed_by t length rows.now fragments.now out.old).1 }
{
    pack(restore_weighed(t, length, rows, fragments, out))
}
