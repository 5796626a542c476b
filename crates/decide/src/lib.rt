// A client's reading of a filter round over its kept bytes: which candidates are listed, what is decided, and the content that it gives.
// A slot is counted from 0, a server from 1: slot i is server i + 1's.
#![tactic(auto)]

ghost use Rattle.std.specs.Prelude.{◌≡◌};
ghost use Rattle.cluster.specs.Refusals.{number_told};
ghost use Rattle.decide.specs.Listing.{listed_in, listed_count};
ghost use Rattle.decide.specs.Steps.{UsableAs};
ghost use Rattle.decide.specs.Decided.{tags_place_def, same_tags_def, decide_refusal_def, decision_told, decided};

use crate::content::rebuild;
use crate::leading::{Replied, find};
use crate::list::entry;
use crate::rank::top;
use crate::reply::tags_alike;
use crate::sizes::servers;
use cluster::Refusal;

mod content;
mod leading;
mod list;
mod rank;
mod reply;
mod sizes;

// The bytes of k fragments are at most k - 1 more than a content's.
pub(crate) const FRAGMENTS: usize = cluster::TOP_LENGTH + cluster::TOP_FAULTS;

// The ranks of blank stamps go up to this one.
pub(crate) const BLANK_RANK: u64 = 255;

// The arguments mean a shelf's kept bytes.
fn is_usable(kept: &[u8], t: usize) -> bool
    ensures { UsableAs t kept.now result }
{
    !cluster::outside(1, cluster::TOP_FAULTS, t) && kept.len() == wire::kept::KEPT
}

// Whether slot i is listed.
pub fn listed(kept: &[u8], t: usize, i: usize) -> bool
    ensures { result ≡ listed_in t kept.now i }
{
    is_usable(kept, t) && i < servers(t) && entry(kept, t, i)
}

// How many slots are listed.
pub fn count_listed(kept: &[u8], t: usize) -> u8
    ensures { result ≡ listed_count t kept.now }
{
    if !is_usable(kept, t) {
        return 0;
    }
    let mut n = 0;
    // no filter with count: its closure may be called for any slot, and entry is asked for slots alone that there are
    for i in 0..servers(t) {
        if entry(kept, t, i) {
            n += 1;
        }
    }
    n
}

// Where the tags stand in a reply of a content of n bytes.
pub fn tags_at(t: u8, n: u32) -> usize
    ensures { result ≡ tags_place_def t n }
{
    wire::sizes::HELD_LENGTH
        + wire::sizes::fragment_size(t, n)
        + wire::sizes::digests_size(t)
        + wire::sizes::DIGEST
}

// Whether server b's tags are those of the candidate in slot i.
pub fn same_tags(kept: &[u8], t: usize, i: usize, b: usize) -> bool
    ensures { result ≡ same_tags_def t kept.now i b }
{
    is_usable(kept, t)
        && i < servers(t)
        && !cluster::outside(1, servers(t), b)
        && tags_alike(kept, t, i, b - 1)
}

// What a filter round has decided: nothing yet; no candidate is left; or the slot that holds the chosen one, the server that leads its group, and
// the length of the content.
#[derive(Clone, Copy)]
pub enum Decision {
    Wait,
    Blank,
    Found(usize, usize, usize),
}

fn decide_refusal(t: usize, size: usize, room: usize) -> Result<(), Refusal>
    ensures { number_told result ≡ decide_refusal_def t size room }
{
    if size != wire::kept::KEPT {
        return Err(Refusal::WrongSize);
    }
    if cluster::outside(1, cluster::TOP_FAULTS, t) {
        return Err(Refusal::Faults);
    }
    if room < cluster::CONTENT_ROOM {
        return Err(Refusal::Room);
    }
    Ok(())
}

// What the filter round has decided; where a candidate is found, its content at the start of out.
pub fn decide(
    kept: &[u8],
    marks: [u8; cluster::MOST_SERVERS],
    t: usize,
    out: &mut [u8],
) -> Result<Decision, Refusal>
    ensures { (decision_told result ≡ (decided t marks kept.now out.old).answer)
        × (out.new ≡ (decided t marks kept.now out.old).output) }
{
    decide_refusal(t, kept.len(), out.len())?;
    let replied = Replied { marks, t };
    let key = top(kept, replied);
    if key <= BLANK_RANK {
        return Ok(Decision::Blank);
    }
    let Some(choice) = find(kept, replied, key) else {
        return Ok(Decision::Wait);
    };
    let group = choice.group;
    let count = rebuild(kept, t, group.leader, group.servers, out);
    Ok(Decision::Found(choice.slot, group.leader + 1, count))
}
