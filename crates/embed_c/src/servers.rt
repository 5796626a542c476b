// The server over its lent memory.
ghost use Rattle.std.specs.Prelude.{◌≡◌};
ghost use Rattle.protocol.specs.ServerBytes.{blank_step};
ghost use Rattle.embed.specs.Packing.{packed};
ghost use Rattle.embed.specs.Servers.{take_by};

#[unsafe(no_mangle)]
pub extern "C" fn cendrulas_server_blank(memory: &mut [u8], t: usize, server: usize) -> u64
    ensures value { result ≡ packed (blank_step memory.old t server).result.number 0 0 0 }
    ensures memory_after { memory.new ≡ (blank_step memory.old t server).memory }
{
    embed::servers::cendrulas_server_blank(memory, t, server)
}

#[unsafe(no_mangle)]
pub extern "C" fn cendrulas_server_take(
    memory: &mut [u8],
    key: &[u8],
    packet: &[u8],
    out: &mut [u8],
) -> u64
    ensures { record { answer = result; memory = memory.new; output = out.new }
        ≡ take_by memory.old key.now packet.now out.old }
{
    embed::servers::cendrulas_server_take(memory, key, packet, out)
}
