// Fragments and restoring.
ghost use Rattle.std.specs.Prelude.{◌≡◌};
ghost use Rattle.erasure.specs.Steps.{fragment_bytes, restore_step};
ghost use Rattle.embed.specs.Packing.{answer, written_by};
ghost use Rattle.embed.specs.Coding.{export_refusal, outcome_of};

#[unsafe(no_mangle)]
pub extern "C" fn cendrulas_fragment(t: usize, server: usize, content: &[u8], out: &mut [u8]) -> u64
    ensures value { result ≡ answer (export_refusal t server content.now out.old) (fragment_bytes t server content.now) }
    ensures out_after { out.new ≡ written_by (export_refusal t server content.now out.old)
        (fragment_bytes t server content.now) out.old }
{
    embed::coding::cendrulas_fragment(t, server, content, out)
}

#[unsafe(no_mangle)]
pub extern "C" fn cendrulas_restore(
    t: usize,
    length: usize,
    servers: &[usize],
    fragments: &[u8],
    out: &mut [u8],
) -> u64
    ensures value { result ≡ outcome_of (restore_step t length servers.now fragments.now out.old).0 }
    ensures out_after { out.new ≡ (restore_step t length servers.now fragments.now out.old).1 }
{
    embed::coding::cendrulas_restore(t, length, servers, fragments, out)
}
