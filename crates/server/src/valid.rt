// Whether a candidate is valid at a server: its stamp is held with the digest of its nonce, or its tag of this server checks.
ghost use Rattle.std.specs.Prelude.{◌≡◌, ◌≤◌};
ghost use Rattle.cluster.specs.Config.{shelf};
ghost use Rattle.protocol.specs.View.{share_at};
ghost use Rattle.server.specs.Valid.{nonce_hash, HistoryAs, tag_checks, ValidAs, ValidPrepared};

use crate::memory::{Opened, find};
use wire::bytes::{part, rest};

// The nonce digest in a share.
fn nonce_digest(share: &[u8], t: u8) -> &[u8]
    ensures { result.now ≡ (share_at (shelf t) share.now).nonce_digest_def }
{
    let size = wire::sizes::fragment_size(t, wire::bytes::number2(share));
    part(
        rest(rest(share, wire::sizes::LENGTH), size),
        wire::sizes::digests_size(t),
        wire::sizes::DIGEST,
    )
}

// The digest of a candidate's nonce.
pub(crate) fn digest_nonce(candidate: &[u8]) -> [u8; wire::sizes::DIGEST]
    ensures { result ≡ nonce_hash candidate.now }
{
    sha256::digest(part(candidate, wire::sizes::STAMP, wire::sizes::NONCE))
}

// One of the stored writes has the candidate's stamp and this nonce digest.
pub(crate) fn by_history(
    memory: &[u8],
    opened: Opened,
    candidate: &[u8],
    digest: [u8; wire::sizes::DIGEST],
) -> bool
    ensures { HistoryAs memory.now opened candidate.now digest result }
{
    let Some(at) = find(memory, opened, candidate) else {
        return false;
    };
    let found = nonce_digest(rest(rest(memory, at), wire::sizes::STAMP), opened.t);
    wire::bytes::same(found, &digest)
}

// The candidate's tag of this server is that of its stamp and this nonce digest.
pub(crate) fn by_tag(
    prepared: hmac::Prepared,
    opened: Opened,
    candidate: &[u8],
    digest: [u8; wire::sizes::DIGEST],
) -> bool
    requires { 1 ≤ opened.server }
    ensures { result ≡ tag_checks prepared opened candidate.now digest }
{
    let stamp = part(candidate, 0, wire::sizes::STAMP);
    let tag = hmac::prepared_tag_with(prepared, stamp, digest);
    let size = wire::sizes::tags_size(opened.t);
    let tags = part(candidate, wire::sizes::NAME, size);
    let place = hmac::TAG * (usize::from(opened.server) - 1);
    wire::bytes::same_throughout(part(tags, place, hmac::TAG), &tag)
}

// With a key that is prepared for many candidates.
pub(crate) fn valid_prepared(
    memory: &[u8],
    prepared: hmac::Prepared,
    opened: Opened,
    candidate: &[u8],
) -> bool
    requires { 1 ≤ opened.server }
    ensures { ValidPrepared memory.now prepared opened candidate.now result }
{
    let digest = digest_nonce(candidate);
    by_history(memory, opened, candidate, digest) || by_tag(prepared, opened, candidate, digest)
}

// As valid_prepared, with the key: it is prepared only where the history does not hold the candidate; a closure for that is no plainer.
pub(crate) fn valid(
    memory: &[u8],
    key: [u8; cluster::KEY],
    opened: Opened,
    candidate: &[u8],
) -> bool
    requires { 1 ≤ opened.server }
    ensures { ValidAs memory.now key opened candidate.now result }
{
    let digest = digest_nonce(candidate);
    by_history(memory, opened, candidate, digest)
        || by_tag(hmac::prepare(key), opened, candidate, digest)
}
