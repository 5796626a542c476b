// Lengths for a shelf, and runs of bytes.
// `as` stands where a number has no `From`; the proof says that it fits.
ghost use Rattle.std.specs.Prelude.{◌≡◌, ◌+◌, ◌*◌, ◌≤◌, length, get_or};
ghost use Rattle.cluster.specs.Config.{shelf};
ghost use Rattle.cluster.specs.Ranges.{top_length, top_faults};
ghost use Rattle.erasure.specs.Fragments.{fragment_size_def};
ghost use Rattle.format.specs.Format.{value2};
ghost use Rattle.protocol.specs.Values.{stamp_size};
ghost use Rattle.protocol.specs.View.{reply_slot};
ghost use Rattle.decide.specs.Steps.{rank_at, DigestsAt, TagsAt};

use wire::sizes::{HELD, HELD_LENGTH};

// How many servers there are, by the t that is lent; cluster has it by a byte.
pub(crate) fn servers(t: usize) -> usize
    requires { t ≤ top_faults }
    ensures { (result ≡ (shelf t).servers) × (result ≡ 3 * t + 1) }
{
    cluster::servers(t as u8)
}

// How many fragments give a content back.
pub(crate) fn threshold(t: usize) -> usize
    requires { t ≤ top_faults }
    ensures { (result ≡ (shelf t).threshold) × (result ≡ t + 1) }
{
    cluster::threshold(t as u8)
}

// The length of a fragment of a content of n bytes.
pub(crate) fn fragment_size(t: usize, n: usize) -> usize
    requires { (1 ≤ t) × (t ≤ top_faults) × (n ≤ top_length) }
    ensures { result ≡ fragment_size_def (shelf t).threshold n }
{
    wire::sizes::fragment_size(t as u8, n as u32)
}

// Where the digests stand in a reply: past the stamp, the byte, the length and the fragment.
pub(crate) fn digests_at(t: usize, n: usize) -> usize
    requires { (1 ≤ t) × (t ≤ top_faults) × (n ≤ top_length) }
    ensures { DigestsAt t n result }
{
    HELD_LENGTH + fragment_size(t, n)
}

// Where its tags stand, with room for them behind it.
pub(crate) fn tags_place(t: usize, n: usize) -> usize
    requires { (1 ≤ t) × (t ≤ top_faults) × (n ≤ top_length) }
    ensures { TagsAt t n result }
{
    crate::tags_at(t as u8, n as u32)
}

// The length of a reply's content.
pub(crate) fn size_of(reply: &[u8]) -> usize
    requires { length reply.now ≡ reply_slot }
    ensures { result ≡ value2 (get_or reply.now (stamp_size + 1) 0) (get_or reply.now (stamp_size + 2) 0) }
{
    wire::bytes::number2(wire::bytes::rest(reply, HELD)) as usize
}

// The rank of the stamp at a place.
pub(crate) fn rank_at(kept: &[u8], at: usize) -> u64
    ensures { result ≡ rank_at kept.now at }
{
    wire::values::rank_at(wire::bytes::rest(kept, at))
}
