// Fragments and restoring.
// `as` stands where a number has no `From`; the proof says that it fits.
ghost use Rattle.std.specs.Prelude.{◌≡◌};
ghost use Rattle.erasure.specs.Steps.{fragment_bytes, restore_step};
ghost use Rattle.embed.specs.Packing.{answer, written_by, packed_told};
ghost use Rattle.embed.specs.Coding.{export_refusal, outcome_of};

use super::pack::{Told, counted, give, need, pack};
use cluster::Refusal;

#[tactic(auto, using(crate::proofs::Laws::at_refusal), unfolding(crate::specs::Coding::export_refusal, crate::specs::Packing::given_def))]
fn fragment(t: usize, server: usize, content: &[u8], out: &mut [u8]) -> Result<Told, Refusal>
    ensures value { packed_told result ≡ answer (export_refusal t server content.now out.old) (fragment_bytes t server content.now) }
    ensures out_after { out.new ≡ written_by (export_refusal t server content.now out.old)
        (fragment_bytes t server content.now) out.old }
{
    need(out.len() >= erasure::ROOM)?;
    let made = erasure::fragment(t, server, content)?;
    give(out, &made.bytes[..made.count])
}

pub fn cendrulas_fragment(t: usize, server: usize, content: &[u8], out: &mut [u8]) -> u64
    ensures value { result ≡ answer (export_refusal t server content.now out.old) (fragment_bytes t server content.now) }
    ensures out_after { out.new ≡ written_by (export_refusal t server content.now out.old)
        (fragment_bytes t server content.now) out.old }
{
    pack(fragment(t, server, content, out))
}

fn restore(
    t: usize,
    length: usize,
    servers: &[usize],
    fragments: &[u8],
    out: &mut [u8],
) -> Result<Told, Refusal>
    ensures value { packed_told result ≡ outcome_of (restore_step t length servers.now fragments.now out.old).0 }
    ensures out_after { out.new ≡ (restore_step t length servers.now fragments.now out.old).1 }
{
    let count = erasure::restore(t, length, servers, fragments, out)?;
    Ok(counted(count as u16))
}

pub fn cendrulas_restore(
    t: usize,
    length: usize,
    servers: &[usize],
    fragments: &[u8],
    out: &mut [u8],
) -> u64
    ensures value { result ≡ outcome_of (restore_step t length servers.now fragments.now out.old).0 }
    ensures out_after { out.new ≡ (restore_step t length servers.now fragments.now out.old).1 }
{
    pack(restore(t, length, servers, fragments, out))
}
