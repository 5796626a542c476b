// The digest, the tag and the whole HMAC.
ghost use Rattle.std.specs.Prelude.{◌≡◌, length};
ghost use Rattle.sha256.specs.Sha256.{sha256};
ghost use Rattle.hmac.specs.Hmac.{hmac_sha256, tag_of, tag_size};
ghost use Rattle.protocol.specs.Values.{digest_size};
ghost use Rattle.embed.specs.Packing.{answer, written_by, packed_told};
ghost use Rattle.embed.specs.Digests.{digest_refusal, keyed_refusal_def};

use crate::pack::{Told, array, give, need, pack};
use cluster::Refusal;

#[tactic(auto, using(crate::proofs::Laws::lengths), unfolding(crate::specs::Digests::digest_refusal, crate::specs::Packing::given_def))]
pub fn cendrulas_digest(message: &[u8], out: &mut [u8]) -> u64
    ensures value { result ≡ answer (digest_refusal out.old) (sha256 message.now) }
    ensures out_after { out.new ≡ written_by (digest_refusal out.old) (sha256 message.now) out.old }
{
    // the room before the digest: a refusal does not take longer for a longer message
    if out.len() < sha256::DIGEST {
        return pack(Err(Refusal::WrongSize));
    }
    pack(give(out, &sha256::digest(message)))
}

#[tactic(auto, using(crate::proofs::Laws::lengths), unfolding(crate::specs::Digests::keyed_refusal_def, crate::specs::Packing::given_def))]
fn tag(key: &[u8], message: &[u8], out: &mut [u8]) -> Result<Told, Refusal>
    ensures value { packed_told result ≡ answer (keyed_refusal_def tag_size key.now (length out.old))
        (tag_of key.now message.now) }
    ensures out_after { out.new ≡ written_by (keyed_refusal_def tag_size key.now (length out.old))
        (tag_of key.now message.now) out.old }
{
    need(hmac::TAG <= out.len())?;
    give(out, &hmac::tag(array(key)?, message))
}

pub fn cendrulas_tag(key: &[u8], message: &[u8], out: &mut [u8]) -> u64
    ensures value { result ≡ answer (keyed_refusal_def tag_size key.now (length out.old)) (tag_of key.now message.now) }
    ensures out_after { out.new ≡ written_by (keyed_refusal_def tag_size key.now (length out.old))
        (tag_of key.now message.now) out.old }
{
    pack(tag(key, message, out))
}

#[tactic(auto, using(crate::proofs::Laws::lengths), unfolding(crate::specs::Digests::keyed_refusal_def, crate::specs::Packing::given_def))]
fn whole(key: &[u8], message: &[u8], out: &mut [u8]) -> Result<Told, Refusal>
    ensures value { packed_told result ≡ answer (keyed_refusal_def digest_size key.now (length out.old))
        (hmac_sha256 key.now message.now) }
    ensures out_after { out.new ≡ written_by (keyed_refusal_def digest_size key.now (length out.old))
        (hmac_sha256 key.now message.now) out.old }
{
    need(sha256::DIGEST <= out.len())?;
    give(out, &hmac::hmac(array(key)?, message))
}

pub fn cendrulas_hmac(key: &[u8], message: &[u8], out: &mut [u8]) -> u64
    ensures value { result ≡ answer (keyed_refusal_def digest_size key.now (length out.old))
        (hmac_sha256 key.now message.now) }
    ensures out_after { out.new ≡ written_by (keyed_refusal_def digest_size key.now (length out.old))
        (hmac_sha256 key.now message.now) out.old }
{
    pack(whole(key, message, out))
}
