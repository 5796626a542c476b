// The order in which a list's candidates are tried: from the highest stamp down, the first among equals.
// A slot's rank is one number for its stamp's rank and the slot, so that no two slots have one rank.
// `as` stands where a number has no `From`; the proof says that it fits.
ghost use Rattle.std.specs.Prelude.{◌≡◌};
ghost use Rattle.cluster.specs.Config.{shelf};
ghost use Rattle.server.specs.Ranks.{slot_of, rank_of, slot_with_def, next_rank_def};

use wire::sizes::candidate_size;

// Above every rank.
pub const ABOVE: u64 = 1 << 48;

// The bytes of the candidate in slot i of a list.
pub(crate) fn slot(list: &[u8], t: u8, i: u8) -> &[u8]
    ensures { result.now ≡ slot_of (shelf t) list.now i }
{
    let size = candidate_size(t);
    wire::bytes::part(list, size * usize::from(i), size)
}

// The rank of slot i.
fn rank_at(list: &[u8], t: u8, i: u8) -> u64
    ensures { result ≡ rank_of (shelf t) list.now i }
{
    256 * wire::values::rank_at(slot(list, t, i)) + u64::from(255 - i)
}

// The slot with a rank.
pub(crate) fn slot_with(rank: u64) -> u8
    ensures { result ≡ slot_with_def rank }
{
    (255 - rank % 256) as u8
}

// The highest rank below bound among the first n slots, if there is one.
pub(crate) fn next_rank(list: &[u8], t: u8, n: u8, bound: u64) -> Option<u64>
    ensures { result ≡ next_rank_def (shelf t) list.now n bound }
{
    let mut best = None;
    for i in 0..n {
        let rank = rank_at(list, t, i);
        if rank < bound {
            best = best.max(Some(rank));
        }
    }
    best
}
