// A reply's slot against a candidate's, and against another reply's.
// `as` stands where a number has no `From`; the proof says that it fits.
ghost use Rattle.std.specs.Prelude.{◌≡◌, suc, ◌<◌, ◌≤◌, length};
ghost use Rattle.cluster.specs.Config.{shelf};
ghost use Rattle.cluster.specs.Ranges.{top_faults, most_servers};
ghost use Rattle.protocol.specs.Primitives.{real};
ghost use Rattle.protocol.specs.Rules.{same_share};
ghost use Rattle.protocol.specs.View.{reply_slot, candidate_slot, candidates_in, reply_slot_of, candidate_at, held_at};
ghost use Rattle.decide.specs.Steps.{Usable, Full, names, intact, slot_held};
ghost use Rattle.decide.specs.Decided.{same_tags_at};

use crate::sizes::{digests_at, servers, size_of, tags_place};
use wire::bytes::{rest, same};
use wire::kept::{CANDIDATE_SLOT, CANDIDATES, REPLIES, REPLY_SLOT};
use wire::packet::share_fragment;
use wire::sizes::{DIGEST, HELD, NAME, STAMP};

// Whether a reply names the candidate: its stamp, a share, a length in its range, and the nonce's digest d. No fragment is digested.
fn names(reply: &[u8], candidate: &[u8], t: usize, d: &[u8]) -> bool
    requires { (1 ≤ t) × (t ≤ top_faults) × (length reply.now ≡ reply_slot) × (length candidate.now ≡ candidate_slot) }
    ensures { result ≡ names (candidate_at (shelf t) candidate.now) d.now (held_at (shelf t) reply.now) }
{
    let n = size_of(reply);
    if reply[STAMP] == 0 || n > cluster::TOP_LENGTH || !same(&reply[..STAMP], &candidate[..STAMP]) {
        return false;
    }
    let at = digests_at(t, n) + DIGEST * servers(t);
    same(&reply[at..at + DIGEST], d)
}

// Whether the fragment in server j + 1's reply has its own digest.
fn intact(reply: &[u8], t: usize, j: usize) -> bool
    requires { (1 ≤ t) × (t ≤ top_faults) × (length reply.now ≡ reply_slot) × (Full reply.now) × (j < (shelf t).servers) }
    ensures { result ≡ intact (suc j) (held_at (shelf t) reply.now).share }
{
    let e = digests_at(t, size_of(reply));
    let d = sha256::digest(share_fragment(rest(reply, HELD), t as u8));
    let at = e + DIGEST * j;
    same(&d, &reply[at..at + DIGEST])
}

// Whether two replies agree: length, digests, nonce digest and tags, the last three one after the other.
fn alike(a: &[u8], b: &[u8], t: usize) -> bool
    requires { (1 ≤ t) × (t ≤ top_faults) × (length a.now ≡ reply_slot) × (length b.now ≡ reply_slot) × (Full a.now) × (Full b.now) }
    ensures { result ≡ same_share real (shelf t) (held_at (shelf t) a.now).share (held_at (shelf t) b.now).share }
{
    let n = size_of(a);
    let at = digests_at(t, n);
    let e = tags_place(t, n) + hmac::TAG * servers(t);
    size_of(b) == n && same(&a[at..e], &b[at..e])
}

// The candidate of slot i is named in slot j.
pub(crate) fn names_at(kept: &[u8], t: usize, i: usize, d: &[u8], j: usize) -> bool
    requires { (Usable t kept.now) × (i < most_servers) × (j < most_servers) }
    ensures { result ≡ names (candidates_in (shelf t) kept.now (suc i)) d.now (slot_held t kept.now j) }
{
    let a = CANDIDATES + CANDIDATE_SLOT * i;
    let b = REPLIES + REPLY_SLOT * j;
    names(&kept[b..b + REPLY_SLOT], &kept[a..a + CANDIDATE_SLOT], t, d)
}

// The fragment in slot j has its own digest.
pub(crate) fn intact_at(kept: &[u8], t: usize, j: usize) -> bool
    requires { (Usable t kept.now) × (j < (shelf t).servers) × (Full (reply_slot_of kept.now j)) }
    ensures { result ≡ intact (suc j) (slot_held t kept.now j).share }
{
    let b = REPLIES + REPLY_SLOT * j;
    intact(&kept[b..b + REPLY_SLOT], t, j)
}

// The replies in slots b and j agree.
pub(crate) fn alike_at(kept: &[u8], t: usize, b: usize, j: usize) -> bool
    requires { (Usable t kept.now) × (b < most_servers) × (j < most_servers) × (Full (reply_slot_of kept.now b))
        × (Full (reply_slot_of kept.now j)) }
    ensures { result ≡ same_share real (shelf t) (slot_held t kept.now b).share (slot_held t kept.now j).share }
{
    let x = REPLIES + REPLY_SLOT * b;
    let y = REPLIES + REPLY_SLOT * j;
    alike(&kept[x..x + REPLY_SLOT], &kept[y..y + REPLY_SLOT], t)
}

// Whether the reply in slot j has a length in its range and the tags of the candidate in slot i.
pub(crate) fn tags_alike(kept: &[u8], t: usize, i: usize, j: usize) -> bool
    requires { (Usable t kept.now) × (i < most_servers) × (j < most_servers) }
    ensures { result ≡ same_tags_at t kept.now i (suc j) }
{
    let a = CANDIDATES + CANDIDATE_SLOT * i + NAME;
    let y = REPLIES + REPLY_SLOT * j;
    let n = size_of(&kept[y..y + REPLY_SLOT]);
    if n > cluster::TOP_LENGTH {
        return false;
    }
    let s = servers(t);
    let at = y + tags_place(t, n);
    same(&kept[at..at + hmac::TAG * s], &kept[a..a + hmac::TAG * s])
}
