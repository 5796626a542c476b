// Groups of replies, and the slot that is found.
ghost use Rattle.std.specs.Prelude.{◌≡◌, true, cond, suc, ◌<◌};
ghost use Rattle.cluster.specs.Config.{shelf};
ghost use Rattle.cluster.specs.Ranges.{most_servers};
ghost use Rattle.sha256.specs.Sha256.{sha256};
ghost use Rattle.protocol.specs.View.{candidates_in};
ghost use Rattle.decide.specs.Steps.{Usable, fits_at, agrees_at_def, MembersAs, GroupAs, leads_at, leader_at, tried_at, ChoiceAs};

use crate::list::entry;
use crate::reply::{alike_at, intact_at, names_at};
use crate::sizes::{rank_at, servers, threshold};
use wire::kept::{CANDIDATE_SLOT, CANDIDATES};
use wire::sizes::{NONCE, STAMP};

// Who replied in a filter round, and the shelf's t.
#[derive(Clone, Copy)]
pub(crate) struct Replied {
    pub(crate) marks: [u8; cluster::MOST_SERVERS],
    pub(crate) t: usize,
}

// What a filter round is asked of one candidate: who replied, and the slot of the candidate that the replies are to prove.
#[derive(Clone, Copy)]
pub(crate) struct Sought {
    pub(crate) replied: Replied,
    pub(crate) slot: usize,
}

// The slot of the server that leads a group, and the group's servers: the first of the array, as many as restore a content.
#[derive(Clone, Copy)]
pub(crate) struct Group {
    pub(crate) leader: usize,
    pub(crate) servers: [usize; cluster::MOST_SERVERS],
}

// A candidate's slot, and the group that proves it.
#[derive(Clone, Copy)]
pub(crate) struct Choice {
    pub(crate) slot: usize,
    pub(crate) group: Group,
}

// The reply of slot j fits the sought candidate, whose nonce has the digest d.
fn fits(kept: &[u8], sought: Sought, d: &[u8], j: usize) -> bool
    requires { (Usable sought.replied.t kept.now) × (sought.slot < most_servers) × (j < (shelf sought.replied.t).servers)
        × (d.now ≡ sha256 (candidates_in (shelf sought.replied.t) kept.now (suc sought.slot)).nonce) }
    ensures { result ≡ fits_at sought.replied.t sought.replied.marks kept.now sought.slot j }
{
    let replied = sought.replied;
    replied.marks[j] != 0
        && names_at(kept, replied.t, sought.slot, d, j)
        && intact_at(kept, replied.t, j)
}

// The reply of slot j is of the group of slot b's, which fits. The fragment is digested last.
fn agrees(kept: &[u8], sought: Sought, d: &[u8], b: usize, j: usize) -> bool
    requires { (Usable sought.replied.t kept.now) × (sought.slot < most_servers)
        × (b < (shelf sought.replied.t).servers) × (j < (shelf sought.replied.t).servers)
        × (d.now ≡ sha256 (candidates_in (shelf sought.replied.t) kept.now (suc sought.slot)).nonce)
        × (fits_at sought.replied.t sought.replied.marks kept.now sought.slot b ≡ true) }
    ensures { result ≡ agrees_at_def sought.replied.t sought.replied.marks kept.now sought.slot b (suc j) }
{
    let replied = sought.replied;
    j == b
        || replied.marks[j] != 0
            && names_at(kept, replied.t, sought.slot, d, j)
            && alike_at(kept, replied.t, b, j)
            && intact_at(kept, replied.t, j)
}

// The members of the group of slot b's reply, where there are enough; n counts them.
fn members_of(
    kept: &[u8],
    sought: Sought,
    d: &[u8],
    b: usize,
) -> Option<[usize; cluster::MOST_SERVERS]>
    requires { (Usable sought.replied.t kept.now) × (sought.slot < most_servers) × (b < (shelf sought.replied.t).servers)
        × (d.now ≡ sha256 (candidates_in (shelf sought.replied.t) kept.now (suc sought.slot)).nonce)
        × (fits_at sought.replied.t sought.replied.marks kept.now sought.slot b ≡ true) }
    ensures { MembersAs sought.replied.t sought.replied.marks kept.now sought.slot b result }
{
    let k = threshold(sought.replied.t);
    let mut members = [0; cluster::MOST_SERVERS];
    let mut n = 0;
    for j in 0..servers(sought.replied.t) {
        if agrees(kept, sought, d, b, j) {
            members[n] = j + 1;
            n += 1;
        }
        if n == k {
            return Some(members);
        }
    }
    None
}

// Slot b's group, where it leads one.
fn group_of(kept: &[u8], sought: Sought, d: &[u8], b: usize) -> Option<Group>
    requires { (Usable sought.replied.t kept.now) × (sought.slot < most_servers) × (b < (shelf sought.replied.t).servers)
        × (d.now ≡ sha256 (candidates_in (shelf sought.replied.t) kept.now (suc sought.slot)).nonce) }
    ensures { GroupAs sought.replied.t sought.replied.marks kept.now sought.slot
        (cond (leads_at sought.replied.t sought.replied.marks kept.now sought.slot b) (suc b) 0) result }
{
    if !fits(kept, sought, d, b) {
        return None;
    }
    let servers = members_of(kept, sought, d, b)?;
    Some(Group { leader: b, servers })
}

// The group of the lowest server that leads one of the sought candidate.
fn leader(kept: &[u8], sought: Sought) -> Option<Group>
    requires { (Usable sought.replied.t kept.now) × (sought.slot < most_servers) }
    ensures { GroupAs sought.replied.t sought.replied.marks kept.now sought.slot
        (leader_at sought.replied.t sought.replied.marks kept.now sought.slot (shelf sought.replied.t).servers) result }
{
    let at = CANDIDATES + CANDIDATE_SLOT * sought.slot + STAMP;
    let d = sha256::digest(&kept[at..at + NONCE]);
    for b in 0..servers(sought.replied.t) {
        if let Some(group) = group_of(kept, sought, &d, b) {
            return Some(group);
        }
    }
    None
}

// The same, where the candidate is listed and has this rank; else none.
fn tried(kept: &[u8], sought: Sought, key: u64) -> Option<Group>
    requires { (Usable sought.replied.t kept.now) × (sought.slot < most_servers) }
    ensures { GroupAs sought.replied.t sought.replied.marks kept.now sought.slot
        (cond (tried_at sought.replied.t kept.now key sought.slot)
        (leader_at sought.replied.t sought.replied.marks kept.now sought.slot (shelf sought.replied.t).servers) 0) result }
{
    if rank_at(kept, CANDIDATES + CANDIDATE_SLOT * sought.slot) != key {
        return None;
    }
    if !entry(kept, sought.replied.t, sought.slot) {
        return None;
    }
    leader(kept, sought)
}

// The first slot that is listed, has this rank, and has a leader.
pub(crate) fn find(kept: &[u8], replied: Replied, key: u64) -> Option<Choice>
    requires { Usable replied.t kept.now }
    ensures { ChoiceAs replied.t replied.marks kept.now key result }
{
    for i in 0..servers(replied.t) {
        let sought = Sought { replied, slot: i };
        if let Some(group) = tried(kept, sought, key) {
            return Some(Choice { slot: i, group });
        }
    }
    None
}
