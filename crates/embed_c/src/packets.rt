// The layout of packets.
ghost use Rattle.std.specs.Prelude.{◌≡◌};
ghost use Rattle.embed.specs.Packing.{packed};
ghost use Rattle.embed.specs.Packets.{packet_refusal};

#[unsafe(no_mangle)]
pub extern "C" fn cendrulas_packet_check(packet: &[u8]) -> u64
    ensures { result ≡ packed (packet_refusal packet.now) 0 0 0 }
{
    embed::packets::cendrulas_packet_check(packet)
}
