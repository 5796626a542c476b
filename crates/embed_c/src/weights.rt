// The weights of restoring, and restoring by them.
ghost use Rattle.std.specs.Prelude.{◌≡◌};
ghost use Rattle.embed.specs.Coding.{outcome_of};
ghost use Rattle.embed.specs.Weights.{weights_out, weighed_by};

#[unsafe(no_mangle)]
pub extern "C" fn cendrulas_weights(
    t: usize,
    servers: &[usize],
    used: &mut [u8],
    rows: &mut [u8],
) -> u64
    ensures { record { answer = result; used = used.new; rows = rows.new }
        ≡ weights_out t servers.now used.old rows.old }
{
    embed::weights::cendrulas_weights(t, servers, used, rows)
}

#[unsafe(no_mangle)]
pub extern "C" fn cendrulas_restore_weighed(
    t: usize,
    length: usize,
    rows: &[u8],
    fragments: &[u8],
    out: &mut [u8],
) -> u64
    ensures value { result ≡ outcome_of (weighed_by t length rows.now fragments.now out.old).0 }
    ensures out_after { out.new ≡ (weighed_by t length rows.now fragments.now out.old).1 }
{
    embed::weights::cendrulas_restore_weighed(t, length, rows, fragments, out)
}
