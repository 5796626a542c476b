// The highest rank that stays in the list.
ghost use Rattle.std.specs.Prelude.{◌≡◌, not, ◌&&◌, suc, ◌+◌, ◌*◌, ◌<◌, ltb, eqb, length};
ghost use Rattle.cluster.specs.Config.{shelf};
ghost use Rattle.cluster.specs.Ranges.{most_servers};
ghost use Rattle.protocol.specs.View.{kept_size, replies_place, reply_slot, candidates_in, replies_in, marked};
ghost use Rattle.decide.specs.Steps.{Usable, rank_at, stays, raised, top_at};

use crate::BLANK_RANK;
use crate::leading::{Replied, Sought};
use crate::sizes::{rank_at, servers};
use wire::kept::{CANDIDATE_SLOT, CANDIDATES, REPLIES, REPLY_SLOT};

// Whether the server of slot j, with this mark, replied with a stamp of a lower rank.
fn is_lower(kept: &[u8], mark: u8, j: usize, key: u64) -> bool
    requires { (length kept.now ≡ kept_size) × (j < most_servers) }
    ensures { result ≡ (not (eqb mark 0) && ltb (rank_at kept.now (replies_place + reply_slot * j)) key) }
{
    mark != 0 && rank_at(kept, REPLIES + REPLY_SLOT * j) < key
}

// Whether a candidate of this rank is still in the list: fewer than a quorum replied with a lower stamp.
fn stays(kept: &[u8], replied: Replied, key: u64) -> bool
    requires { Usable replied.t kept.now }
    ensures { result ≡ stays (shelf replied.t) (marked replied.marks)
        (replies_in (shelf replied.t) replied.marks kept.now) key }
{
    let s = servers(replied.t);
    let mut n = 0;
    // no filter with count: its closure may be called for any slot, and the marks are read for slots alone that there are
    for j in 0..s {
        if is_lower(kept, replied.marks[j], j, key) {
            n += 1;
        }
    }
    n < s - replied.t
}

// The higher of a rank and that of the sought candidate, where it stays. A rank that is not higher is not looked for among the replies.
fn raised(kept: &[u8], sought: Sought, top: u64) -> u64
    requires { (Usable sought.replied.t kept.now) × (sought.slot < most_servers) }
    ensures { result ≡ raised (shelf sought.replied.t) (marked sought.replied.marks)
        (replies_in (shelf sought.replied.t) sought.replied.marks kept.now)
        (candidates_in (shelf sought.replied.t) kept.now (suc sought.slot)) top }
{
    let key = rank_at(kept, CANDIDATES + CANDIDATE_SLOT * sought.slot);
    if key > top && stays(kept, sought.replied, key) {
        return key;
    }
    top
}

// The highest rank that stays in the list, or the blank one.
pub(crate) fn top(kept: &[u8], replied: Replied) -> u64
    requires { Usable replied.t kept.now }
    ensures { result ≡ top_at replied.t replied.marks kept.now (shelf replied.t).servers }
{
    let mut key = BLANK_RANK;
    for i in 0..servers(replied.t) {
        key = raised(kept, Sought { replied, slot: i }, key);
    }
    key
}
