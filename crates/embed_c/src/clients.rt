// The client over one lent run of bytes: the small state, then the kept bytes.
ghost use Rattle.std.specs.Prelude.{◌≡◌};
ghost use Rattle.embed.specs.Clients.{write_in_def, read_in_def, give_up_in_def, make_in_def, take_in_def};

#[unsafe(no_mangle)]
pub extern "C" fn cendrulas_client_begin_write(
    state: &mut [u8],
    t: usize,
    client: usize,
    content: &[u8],
    nonce: &[u8],
) -> u64
    ensures { record { answer = result; state = state.new } ≡ write_in_def state.old t client content.now
        nonce.now }
{
    embed::clients::cendrulas_client_begin_write(state, t, client, content, nonce)
}

#[unsafe(no_mangle)]
pub extern "C" fn cendrulas_client_begin_read(state: &mut [u8], t: usize, client: usize) -> u64
    ensures { record { answer = result; state = state.new } ≡ read_in_def state.old t client }
{
    embed::clients::cendrulas_client_begin_read(state, t, client)
}

#[unsafe(no_mangle)]
pub extern "C" fn cendrulas_client_give_up(state: &mut [u8], t: usize, client: usize) -> u64
    ensures { record { answer = result; state = state.new } ≡ give_up_in_def state.old t client }
{
    embed::clients::cendrulas_client_give_up(state, t, client)
}

#[unsafe(no_mangle)]
pub extern "C" fn cendrulas_client_make(
    state: &[u8],
    t: usize,
    client: usize,
    server: usize,
    out: &mut [u8],
) -> u64
    ensures { record { answer = result; output = out.new } ≡ make_in_def state.now t client server out.old }
{
    embed::clients::cendrulas_client_make(state, t, client, server, out)
}

#[unsafe(no_mangle)]
pub extern "C" fn cendrulas_client_take(
    state: &mut [u8],
    t: usize,
    client: usize,
    writers: &[u8],
    keys: &[u8],
    packet: &[u8],
    out: &mut [u8],
) -> u64
    ensures { record { answer = result; state = state.new; output = out.new }
        ≡ take_in_def state.old t client writers.now keys.now packet.now out.old }
{
    embed::clients::cendrulas_client_take(state, t, client, writers, keys, packet, out)
}
