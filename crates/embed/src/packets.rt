// The layout of packets.
ghost use Rattle.std.specs.Prelude.{◌≡◌};
ghost use Rattle.embed.specs.Packing.{packed, packed_told};
ghost use Rattle.embed.specs.Packets.{packet_refusal};

use super::pack::{Told, counted, pack};
use cluster::Refusal;

#[tactic(auto, unfolding(crate::specs::Packets::packet_refusal))]
fn check(packet: &[u8]) -> Result<Told, Refusal>
    ensures { packed_told result ≡ packed (packet_refusal packet.now) 0 0 0 }
{
    let _ = wire::packet::read_packet(packet).ok_or(Refusal::Layout)?;
    Ok(counted(0))
}

pub fn cendrulas_packet_check(packet: &[u8]) -> u64
    ensures { result ≡ packed (packet_refusal packet.now) 0 0 0 }
{
    pack(check(packet))
}
