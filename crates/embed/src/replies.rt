// What a store reply says, for a host that must see a full server.
// `as` stands where a number has no `From`; the proof says that it fits.
ghost use Rattle.std.specs.Prelude.{◌≡◌};
ghost use Rattle.embed.specs.Packing.{packed_told};
ghost use Rattle.embed.specs.Replies.{code_told};

use super::pack::{Told, counted, pack};
use cluster::Refusal;
use protocol::kinds::Kind;

#[tactic(auto, using(crate::proofs::Laws::at_refusal), unfolding(crate::specs::Replies::code_told, crate::specs::Replies::code_of, crate::specs::Packets::packet_refusal))]
fn code(packet: &[u8]) -> Result<Told, Refusal>
    ensures { packed_told result ≡ code_told packet.now }
{
    let passed = wire::packet::read_packet(packet).ok_or(Refusal::Layout)?;
    if passed.kind != Kind::StoreReply {
        return Ok(counted(0));
    }
    Ok(Told {
        result: 1,
        number: 0,
        count: passed.number as u16,
    })
}

pub fn cendrulas_store_code(packet: &[u8]) -> u64
    ensures { result ≡ code_told packet.now }
{
    pack(code(packet))
}
