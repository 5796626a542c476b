// What a store reply says, for a host that must see a full server.
ghost use Rattle.std.specs.Prelude.{◌≡◌};
ghost use Rattle.embed.specs.Replies.{code_told};

#[unsafe(no_mangle)]
pub extern "C" fn cendrulas_store_code(packet: &[u8]) -> u64
    ensures { result ≡ code_told packet.now }
{
    embed::replies::cendrulas_store_code(packet)
}
