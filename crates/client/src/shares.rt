// The shares of a write, each made in its slot of the kept bytes: the content's length, the server's fragment, and what is the same in all shares.
// That has the digests of all fragments, so it is put behind them once all are made. The content stands below the slots and stays as it was, so
// each fragment is made of it where it stands.
// `as` stands where a number has no `From`; the proof says that it fits.
ghost use Rattle.std.specs.Prelude.{◌≡◌, ◌++◌, suc, ◌≤◌, ◌+◌, ◌*◌, length};
ghost use Rattle.cluster.specs.Config.{shelf};
ghost use Rattle.cluster.specs.Ranges.{top_faults, top_length};
ghost use Rattle.erasure.specs.Fragments.{fragment_size_def, fragment};
ghost use Rattle.hmac.specs.Hmac.{tag_size};
ghost use Rattle.sha256.specs.Sha256.{sha256};
ghost use Rattle.format.specs.Format.{print2};
ghost use Rattle.format.specs.Reading.{put};
ghost use Rattle.protocol.specs.Values.{digest_size};
ghost use Rattle.protocol.specs.View.{replies_place, reply_slot, kept_size, content_of};
ghost use Rattle.client.specs.Steps.{digest_run, slot_run, start_of, offered};

use crate::{kept, refusals};

// The start of a share: the content's length in 2 bytes, and the fragment.
fn put_start(kept: &mut [u8], at: usize, n: usize, fragment: &[u8])
    requires { (n ≤ top_length) × (at + 2 + length fragment.now ≤ length kept.old) }
    ensures { kept.new ≡ put kept.old at (print2 n ++ fragment.now) }
{
    let size = wire::bytes::bytes2(n as u16);
    kept::write_at(kept, at, &size);
    kept::write_at(kept, at + wire::sizes::LENGTH, fragment);
}

// The start of server i + 1's share, in its slot; and its fragment's digest, after those before it.
fn put_fragment(kept: &mut [u8], digests: &mut [u8], call: protocol::Call, t: usize, i: usize)
    requires { (1 ≤ t) × ((t ≤ top_faults) × ((suc i ≤ (shelf t).servers) × ((length kept.old ≡ kept_size)
        × (digest_size * i + digest_size ≤ length digests.old)))) }
    ensures { (kept.new ≡ put kept.old (replies_place + reply_slot * i) (start_of t (content_of call kept.old) (suc i)))
        × (digests.new ≡ put digests.old (digest_size * i)
        (sha256 (fragment (shelf t).points (shelf t).threshold (content_of call kept.old) (suc i)))) }
{
    let content = kept::content(kept, call);
    let n = content.len();
    let made = erasure::fragment(t, i + 1, content).unwrap();
    let fragment = wire::bytes::part(&made.bytes, 0, made.count);
    let digest = sha256::digest(fragment);
    kept::write_at(digests, wire::sizes::DIGEST * i, &digest);
    let at = wire::kept::REPLIES + wire::kept::REPLY_SLOT * i;
    put_start(kept, at, n, fragment);
}

// The starts of all shares, and the digests of the fragments.
fn put_fragments(kept: &mut [u8], digests: &mut [u8], call: protocol::Call, t: usize)
    requires { (1 ≤ t) × ((t ≤ top_faults) × ((length kept.old ≡ kept_size) × (digest_size * (shelf t).servers ≤ length digests.old))) }
    ensures { (kept.new ≡ slot_run reply_slot kept.old replies_place (start_of t (content_of call kept.old))
        (shelf t).servers)
        × (digests.new ≡ put digests.old 0 (digest_run t (content_of call kept.old) (shelf t).servers)) }
{
    for i in 0..refusals::servers(t) {
        put_fragment(kept, digests, call, t, i);
    }
}

// What follows the digests in each share: the nonce's digest and the tags.
fn put_common(common: &mut [u8], at: usize, digest: [u8; wire::sizes::DIGEST], tags: &[u8])
    requires { at + digest_size + length tags.now ≤ length common.old }
    ensures { common.new ≡ put common.old at (digest ++ tags.now) }
{
    kept::write_at(common, at, &digest);
    kept::write_at(common, at + wire::sizes::DIGEST, tags);
}

// The starts of all shares, and what is the same in all of them: the digests, the nonce's digest and the tags.
fn put_parts(
    kept: &mut [u8],
    common: &mut [u8],
    call: protocol::Call,
    t: usize,
    digest: [u8; wire::sizes::DIGEST],
    tags: &[u8],
)
    requires { (1 ≤ t) × ((t ≤ top_faults) × ((length kept.old ≡ kept_size)
        × (digest_size * (shelf t).servers + digest_size + length tags.now ≤ length common.old))) }
    ensures { (kept.new ≡ slot_run reply_slot kept.old replies_place (start_of t (content_of call kept.old))
        (shelf t).servers)
        × (common.new ≡ put common.old 0 (digest_run t (content_of call kept.old) (shelf t).servers
        ++ (digest ++ tags.now))) }
{
    put_fragments(kept, common, call, t);
    put_common(
        common,
        wire::sizes::DIGEST * refusals::servers(t),
        digest,
        tags,
    );
}

// What is the same in all shares, in each slot behind the fragment, for a content of n bytes.
fn put_ends(kept: &mut [u8], t: usize, n: usize, common: &[u8])
    requires { (t ≤ top_faults) × ((n ≤ top_length) × ((length kept.old ≡ kept_size)
        × (2 + fragment_size_def (shelf t).threshold n + length common.now ≤ reply_slot))) }
    ensures { kept.new ≡ slot_run reply_slot kept.old (replies_place + (2 + fragment_size_def (shelf t).threshold n))
        (λ _. common.now) (shelf t).servers }
{
    let f = wire::sizes::fragment_size(t as u8, n as u32);
    let at = wire::kept::REPLIES + (wire::sizes::LENGTH + f);
    for i in 0..refusals::servers(t) {
        kept::write_at(kept, at + wire::kept::REPLY_SLOT * i, common);
    }
}

// Bytes of what is the same in all shares, for every t.
const COMMON: usize = wire::sizes::DIGEST * cluster::MOST_SERVERS
    + wire::sizes::DIGEST
    + hmac::TAG * cluster::MOST_SERVERS;

// Lines 102 to 104: the shares of the write. Fragments, digests and tags are made once for all servers.
pub(crate) fn put_offer(
    kept: &mut [u8],
    call: protocol::Call,
    t: usize,
    digest: [u8; wire::sizes::DIGEST],
    tags: &[u8],
)
    requires { (1 ≤ t) × ((t ≤ top_faults) × ((length kept.old ≡ kept_size) × (length tags.now ≡ tag_size * (shelf t).servers))) }
    ensures { kept.new ≡ offered t kept.old (content_of call kept.old) digest tags.now }
{
    let mut common = [0u8; COMMON];
    let n = kept::content(kept, call).len();
    put_parts(kept, &mut common, call, t, digest, tags);
    let m = wire::sizes::DIGEST * refusals::servers(t) + wire::sizes::DIGEST + tags.len();
    put_ends(kept, t, n, wire::bytes::part(&common, 0, m));
}
