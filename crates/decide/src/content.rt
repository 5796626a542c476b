// The content that a group gives.
ghost use Rattle.std.specs.Prelude.{◌≡◌, ◌<◌, ◌≤◌, length, take};
ghost use Rattle.cluster.specs.Config.{shelf};
ghost use Rattle.cluster.specs.Ranges.{top_length, content_room, most_servers};
ghost use Rattle.erasure.specs.Fragments.{fragment_size_def};
ghost use Rattle.format.specs.Reading.{over};
ghost use Rattle.protocol.specs.View.{reply_slot_of};
ghost use Rattle.decide.specs.Steps.{Usable, Full, Rising, FragmentsAs, content_of};

use crate::FRAGMENTS;
use crate::sizes::{fragment_size, size_of, threshold};
use wire::kept::{REPLIES, REPLY_SLOT};
use wire::sizes::HELD_LENGTH;

// The fragments of the first servers of the array, one after the other, of a content of n bytes.
fn fragments_of(
    kept: &[u8],
    t: usize,
    n: usize,
    servers: [usize; cluster::MOST_SERVERS],
) -> [u8; FRAGMENTS]
    requires { (Usable t kept.now) × (n ≤ top_length) × (Rising t servers) }
    ensures { FragmentsAs t kept.now (fragment_size_def (shelf t).threshold n) servers result }
{
    let f = fragment_size(t, n);
    let k = threshold(t);
    let mut out = [0u8; FRAGMENTS];
    for p in 0..k {
        let at = REPLIES + REPLY_SLOT * (servers[p] - 1) + HELD_LENGTH;
        wire::make::put(&mut out, p * f, &kept[at..at + f]);
    }
    out
}

// The content that the first servers of the array give, of the length in slot b, at the start of out; its length.
pub(crate) fn rebuild(
    kept: &[u8],
    t: usize,
    b: usize,
    servers: [usize; cluster::MOST_SERVERS],
    out: &mut [u8],
) -> usize
    requires { (Usable t kept.now) × (b < most_servers) × (Full (reply_slot_of kept.now b)) × (Rising t servers)
        × (content_room ≤ length out.old) }
    ensures { (result ≡ length (content_of t kept.now b (take (shelf t).threshold servers)))
        × (out.new ≡ over (content_of t kept.now b (take (shelf t).threshold servers)) out.old) }
{
    let y = REPLIES + REPLY_SLOT * b;
    let n = size_of(&kept[y..y + REPLY_SLOT]);
    let k = threshold(t);
    let end = k * fragment_size(t, n);
    let fragments = fragments_of(kept, t, n, servers);
    erasure::restore(t, n, &servers[..k], &fragments[..end], out).unwrap()
}
