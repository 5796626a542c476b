// The end of clock: stamp, tags and shares of the write are made, each once, and kept.
// `as` stands where a number has no `From`; the proof says that it fits.
ghost use Rattle.std.specs.Prelude.{◌≡◌, ◌++◌, ◌≤◌, ◌*◌, length};
ghost use Rattle.cluster.specs.Config.{shelf};
ghost use Rattle.cluster.specs.Ranges.{top_faults, top_client, most_servers};
ghost use Rattle.hmac.specs.Hmac.{tag_size};
ghost use Rattle.sha256.specs.Sha256.{sha256};
ghost use Rattle.protocol.specs.Values.{stamp_size, nonce_size};
ghost use Rattle.protocol.specs.View.{kept_size, chosen_place, content_of};
ghost use Rattle.format.specs.Reading.{put};
ghost use Rattle.client.specs.Steps.{tag_run, offered, write_made};

use crate::{Party, kept, refusals, shares, stamps};

// Line 90: the candidate that complete will show.
fn put_candidate(kept: &mut [u8], stamp: &[u8], nonce: &[u8], tags: &[u8])
    requires { (length kept.old ≡ kept_size) × ((length stamp.now ≡ stamp_size)
        × ((length nonce.now ≡ nonce_size) × (length tags.now ≤ tag_size * most_servers))) }
    ensures { kept.new ≡ put kept.old chosen_place (stamp.now ++ (nonce.now ++ tags.now)) }
{
    kept::write_at(kept, wire::kept::CHOSEN, stamp);
    kept::write_at(kept, wire::kept::CHOSEN + wire::sizes::STAMP, nonce);
    kept::write_at(kept, wire::kept::CHOSEN + wire::sizes::NAME, tags);
}

// A write's nonce and its digest.
#[derive(Clone, Copy)]
struct Nonce {
    bytes: [u8; wire::sizes::NONCE],
    digest: [u8; wire::sizes::DIGEST],
}

// The candidate and the shares. The content stands below the candidate, which leaves it as it was.
fn put_write(
    kept: &mut [u8],
    call: protocol::Call,
    t: usize,
    stamp: &[u8],
    nonce: Nonce,
    tags: &[u8],
)
    requires { (1 ≤ t) × ((t ≤ top_faults) × ((length kept.old ≡ kept_size)
        × ((length stamp.now ≡ stamp_size) × (length tags.now ≡ tag_size * (shelf t).servers)))) }
    ensures { kept.new ≡ offered t (put kept.old chosen_place
        (stamp.now ++ (nonce.bytes ++ tags.now)))
        (content_of call kept.old) nonce.digest tags.now }
{
    put_candidate(kept, stamp, &nonce.bytes, tags);
    shares::put_offer(kept, call, t, nonce.digest, tags);
}

// The tags are made once, for the candidate and for all shares.
fn put_tagged(
    kept: &mut [u8],
    call: protocol::Call,
    t: usize,
    keys: &[[u8; cluster::KEY]; cluster::MOST_SERVERS],
    stamp: &[u8],
    nonce: [u8; wire::sizes::NONCE],
)
    requires { (1 ≤ t) × ((t ≤ top_faults) × ((length kept.old ≡ kept_size) × (length stamp.now ≡ stamp_size))) }
    ensures { kept.new ≡ offered t (put kept.old chosen_place
        (stamp.now ++ (nonce ++ tag_run keys.now stamp.now (sha256 nonce) (shelf t).servers)))
        (content_of call kept.old) (sha256 nonce) (tag_run keys.now stamp.now (sha256 nonce) (shelf t).servers) }
{
    let digest = sha256::digest(&nonce);
    let mut tags = [0u8; hmac::TAG * cluster::MOST_SERVERS];
    stamps::put_tags(&mut tags, t, keys, stamp, digest);
    let made = wire::bytes::part(&tags, 0, hmac::TAG * refusals::servers(t));
    let shown = Nonce {
        bytes: nonce,
        digest,
    };
    put_write(kept, call, t, stamp, shown, made);
}

// The write under a number: its candidate and its shares, into the kept bytes.
pub(crate) fn prepare(
    kept: &mut [u8],
    call: protocol::Call,
    party: Party,
    writers: &[u8; cluster::KEY],
    keys: &[[u8; cluster::KEY]; cluster::MOST_SERVERS],
    number: u32,
)
    requires { (1 ≤ party.t) × ((party.t ≤ top_faults) × ((party.client ≤ top_client) × (length kept.old ≡ kept_size))) }
    ensures { kept.new
        ≡ write_made party.t party.client writers.now keys.now call kept.old number }
{
    let nonce = kept::nonce(kept);
    let stamp = stamps::stamp_bytes(writers, number, party.client as u8);
    put_tagged(kept, call, party.t, keys, &stamp, nonce);
}
