// What a reply leads to.
// `as` stands where a number has no `From`; the proof says that it fits.
ghost use Rattle.std.specs.Prelude.{◌≡◌, cond, ◌≤◌, length};
ghost use Rattle.cluster.specs.Config.{shelf};
ghost use Rattle.cluster.specs.Ranges.{top_faults, top_length, content_room, most_servers};
ghost use Rattle.protocol.specs.declared.Taken.TheVariants as taken;
ghost use Rattle.format.specs.Reading.{over};
ghost use Rattle.protocol.specs.ClientBytes.{fresh};
ghost use Rattle.protocol.specs.Kinds.{round_number};
ghost use Rattle.client.specs.Rounds.{noted, ends, with_tally_def};
ghost use Rattle.client.specs.Steps.{number_of};

use crate::{kept, rounds};
use protocol::rounds::Round;

// The answer to a reply, and the call after it.
#[derive(Clone, Copy)]
pub struct Answered {
    pub answer: protocol::Taken,
    pub call: protocol::Call,
}

// The call goes on.
pub(crate) fn more(call: protocol::Call) -> Answered
    ensures { result ≡ record { answer = taken.More; call = call } }
{
    Answered {
        answer: protocol::Taken::More,
        call,
    }
}

// The server has replied, and the round goes on.
pub(crate) fn note_reply(call: protocol::Call, t: usize, server: usize) -> protocol::Call
    requires { (t ≤ top_faults) × ((1 ≤ server) × (server ≤ most_servers)) }
    ensures { result ≡ with_tally_def call (noted (shelf t) call.tally server) }
{
    rounds::with_tally(call, rounds::note(t, call.tally, server))
}

// The next round, or the end of the call: none.
pub(crate) fn enter(call: protocol::Call, round: Option<Round>) -> protocol::Call
    ensures { result ≡ with_tally_def call (fresh (number_of round)) }
{
    rounds::with_tally(call, rounds::fresh_tally(round))
}

// The reply is noted, or it ends its round and the next one begins.
pub(crate) fn step(call: protocol::Call, t: usize, server: usize, next: Round) -> Answered
    requires { (t ≤ top_faults) × ((1 ≤ server) × (server ≤ most_servers)) }
    ensures { result ≡ record {
      answer = taken.More;
      call = with_tally_def call
          (cond (ends (shelf t) call server) (fresh (round_number next)) (noted (shelf t) call.tally server));
    } }
{
    let noted = note_reply(call, t, server);
    if rounds::is_full(t, noted.tally) {
        return more(enter(call, Some(next)));
    }
    more(noted)
}

// A content is delivered, and the call has ended.
pub(crate) fn deliver(
    call: protocol::Call,
    label: protocol::Label,
    content: &[u8],
    out: &mut [u8],
) -> Answered
    requires { (length content.now ≤ top_length) × (content_room ≤ length out.old) }
    ensures { (result ≡ record {
      answer = taken.Read label.number label.writer (length content.now);
      call = with_tally_def call (fresh 0);
    })
        × (out.new ≡ over content.now out.old) }
{
    kept::write_at(out, 0, content);
    Answered {
        answer: protocol::Taken::Read(label.number, label.writer, content.len() as u16),
        call: enter(call, None),
    }
}
