// The list of filter: the candidates that are listed, one after another, each as it stands in its slot.
// `as` stands where a number has no `From`; the proof says that it fits.
ghost use Rattle.std.specs.Prelude.{◌≡◌, cond, [], suc, ◌≤◌, ◌<◌, ◌+◌, ◌*◌, length};
ghost use Rattle.cluster.specs.Config.{shelf};
ghost use Rattle.cluster.specs.Ranges.{top_faults, most_servers};
ghost use Rattle.format.specs.Format.{print_many};
ghost use Rattle.protocol.specs.Packet.{candidate_f};
ghost use Rattle.format.specs.Reading.{Wrote};
ghost use Rattle.protocol.specs.Rules.{gather};
ghost use Rattle.protocol.specs.View.{kept_size, candidate_slot, candidates_in};
ghost use Rattle.decide.specs.Listing.{listed_in};

use crate::{kept, refusals};

// Slot i's candidate, if it is listed. Answers the place past what was written.
fn put_entry(out: &mut [u8], at: usize, kept: &[u8], t: usize, i: usize) -> usize
    requires { (t ≤ top_faults) × ((i < most_servers) × ((length kept.now ≡ kept_size) × (at + candidate_slot ≤ length out.old))) }
    ensures { Wrote out.old at
        (cond (listed_in t kept.now i) ((candidate_f (shelf t)).print (candidates_in (shelf t) kept.now (suc i))) [])
        out.new result }
{
    if !decide::listed(kept, t, i) {
        return at;
    }
    let slot = wire::bytes::part(
        kept,
        wire::kept::CANDIDATES + wire::kept::CANDIDATE_SLOT * i,
        wire::kept::CANDIDATE_SLOT,
    );
    let size = wire::sizes::candidate_size(t as u8);
    wire::make::put(out, at, wire::bytes::part(slot, 0, size))
}

// The whole list. Answers the place past it.
pub(crate) fn put_list(out: &mut [u8], at: usize, kept: &[u8], t: usize) -> usize
    requires { (1 ≤ t) × ((t ≤ top_faults) × ((length kept.now ≡ kept_size) × (at + candidate_slot * most_servers ≤ length out.old))) }
    ensures { Wrote out.old at
        (print_many (candidate_f (shelf t)) (gather (candidates_in (shelf t) kept.now) (shelf t).servers)) out.new result }
{
    let mut next = at;
    for i in 0..refusals::servers(t) {
        next = put_entry(out, next, kept, t, i);
    }
    next
}
