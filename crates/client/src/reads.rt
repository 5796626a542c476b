// The rounds of a read: collect, filter and repair.
ghost use Rattle.std.specs.Prelude.{◌≡◌, cond, ◌≤◌, ◌+◌, ◌*◌, ◌-◌, length};
ghost use Rattle.cluster.specs.Config.{shelf};
ghost use Rattle.cluster.specs.Ranges.{top_faults, most_servers, content_room};
ghost use Rattle.protocol.specs.declared.Taken.TheVariants as taken;
ghost use Rattle.format.specs.Reading.{over, put};
ghost use Rattle.protocol.specs.View.{kept_size, candidates_place, candidate_slot, chosen_of, content_of};
ghost use Rattle.protocol.specs.ClientBytes.{fresh};
ghost use Rattle.client.specs.Answers.{read_as};
ghost use Rattle.client.specs.Rounds.{noted, ends, with_tally_def};

use crate::answers::Answered;
use crate::{answers, kept, rounds};
use protocol::rounds::Round;

// Lines 148 to 150. Amended: filter is sent even when the list is empty.
pub(crate) fn take_collect(
    call: protocol::Call,
    kept: &mut [u8],
    t: usize,
    server: usize,
    body: &[u8],
) -> Answered
    requires { (t ≤ top_faults) × ((1 ≤ server) × ((server ≤ most_servers) × ((length kept.old ≡ kept_size) × (length body.now ≤ candidate_slot)))) }
    ensures { (result ≡ record {
      answer = taken.More;
      call = with_tally_def call
          (cond (ends (shelf t) call server) (fresh 5) (noted (shelf t) call.tally server));
    })
        × (kept.new ≡ put kept.old (candidates_place + candidate_slot * (server - 1)) body.now) }
{
    kept::write_at(
        kept,
        wire::kept::CANDIDATES + wire::kept::CANDIDATE_SLOT * (server - 1),
        body,
    );
    answers::step(call, t, server, Round::Filter)
}

// Line 159.
pub(crate) fn take_repair(
    call: protocol::Call,
    kept: &[u8],
    t: usize,
    server: usize,
    out: &mut [u8],
) -> Answered
    requires { (t ≤ top_faults) × ((1 ≤ server) × ((server ≤ most_servers) × (content_room ≤ length out.old))) }
    ensures { (result ≡ cond (ends (shelf t) call server)
        (record {
          answer = read_as (chosen_of (shelf t) kept.now).stamp (length (content_of call kept.now));
          call = with_tally_def call (fresh 0);
        })
        (record { answer = taken.More; call = with_tally_def call (noted (shelf t) call.tally server) }))
        × (out.new ≡ cond (ends (shelf t) call server) (over (content_of call kept.now) out.old) out.old) }
{
    let noted = answers::note_reply(call, t, server);
    if rounds::is_full(t, noted.tally) {
        let label = kept::chosen_label(kept, t);
        return answers::deliver(call, label, kept::content(kept, call), out);
    }
    answers::more(noted)
}
