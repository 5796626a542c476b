// Which slots are listed.
ghost use Rattle.std.specs.Prelude.{◌≡◌, suc, ◌<◌};
ghost use Rattle.cluster.specs.Config.{shelf};
ghost use Rattle.cluster.specs.Ranges.{most_servers};
ghost use Rattle.protocol.specs.Values.{same_candidate};
ghost use Rattle.protocol.specs.View.{candidates_in};
ghost use Rattle.decide.specs.Listing.{enters};
ghost use Rattle.decide.specs.Steps.{Usable};

use crate::BLANK_RANK;
use crate::sizes::{rank_at, servers};
use wire::bytes::same;
use wire::kept::{CANDIDATE_SLOT, CANDIDATES};
use wire::sizes::NAME;

// Whether slots i and j hold the same candidate.
fn twins(kept: &[u8], t: usize, i: usize, j: usize) -> bool
    requires { (Usable t kept.now) × (i < most_servers) × (j < most_servers) }
    ensures { result ≡ same_candidate (candidates_in (shelf t) kept.now (suc i)) (candidates_in (shelf t) kept.now (suc j)) }
{
    let n = NAME + hmac::TAG * servers(t);
    let a = CANDIDATES + CANDIDATE_SLOT * i;
    let b = CANDIDATES + CANDIDATE_SLOT * j;
    same(&kept[a..a + n], &kept[b..b + n])
}

// Whether slot i's candidate enters the list.
pub(crate) fn entry(kept: &[u8], t: usize, i: usize) -> bool
    requires { (Usable t kept.now) × (i < most_servers) }
    ensures { result ≡ enters (candidates_in (shelf t) kept.now) (suc i) }
{
    if rank_at(kept, CANDIDATES + CANDIDATE_SLOT * i) <= BLANK_RANK {
        return false;
    }
    for j in 0..i {
        if twins(kept, t, i, j) {
            return false;
        }
    }
    true
}
