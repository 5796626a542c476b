// How far the round in hand has come, for a host that would not make a packet to see it.
ghost use Rattle.std.specs.Prelude.{◌≡◌};
ghost use Rattle.embed.specs.Rounds.{round_in};

#[unsafe(no_mangle)]
pub extern "C" fn cendrulas_client_round(state: &[u8]) -> u64
    ensures { result ≡ round_in state.now }
{
    embed::rounds::cendrulas_client_round(state)
}
