// The rounds of a write: clock, store and complete.
ghost use Rattle.std.specs.Prelude.{◌≡◌, cond, ◌≤◌, eqb};
ghost use Rattle.cluster.specs.Config.{shelf};
ghost use Rattle.cluster.specs.Ranges.{top_faults, most_servers};
ghost use Rattle.protocol.specs.declared.Taken.TheVariants as taken;
ghost use Rattle.protocol.specs.View.{chosen_of};
ghost use Rattle.protocol.specs.ClientBytes.{fresh};
ghost use Rattle.protocol.specs.Kinds.{code_number};
ghost use Rattle.client.specs.Answers.{written_as_def};
ghost use Rattle.client.specs.Rounds.{counted, noted, ends, with_tally_def};

use crate::answers::Answered;
use crate::{answers, kept, rounds};
use protocol::codes::Code;
use protocol::rounds::Round;

// Line 105. Amended: 11 changes nothing and isn't counted.
pub(crate) fn take_store(call: protocol::Call, t: usize, server: usize, code: Code) -> Answered
    requires { (t ≤ top_faults) × ((1 ≤ server) × (server ≤ most_servers)) }
    ensures { result ≡ record {
      answer = taken.More;
      call = with_tally_def call (cond (eqb (code_number code) 11) (counted (shelf t) call.tally)
          (cond (ends (shelf t) call server) (fresh 3) (noted (shelf t) call.tally server)));
    } }
{
    match code {
        Code::Full => answers::more(rounds::with_tally(call, rounds::recount(t, call.tally))),
        Code::Kept | Code::Held => answers::step(call, t, server, Round::Complete),
    }
}

// Line 108.
pub(crate) fn take_complete(call: protocol::Call, kept: &[u8], t: usize, server: usize) -> Answered
    requires { (t ≤ top_faults) × ((1 ≤ server) × (server ≤ most_servers)) }
    ensures { result ≡ cond (ends (shelf t) call server)
        (record { answer = written_as_def (chosen_of (shelf t) kept.now).stamp; call = with_tally_def call (fresh 0) })
        (record { answer = taken.More; call = with_tally_def call (noted (shelf t) call.tally server) }) }
{
    let noted = answers::note_reply(call, t, server);
    if rounds::is_full(t, noted.tally) {
        let label = kept::chosen_label(kept, t);
        return Answered {
            answer: protocol::Taken::Written(label.number, label.writer),
            call: answers::enter(call, None),
        };
    }
    answers::more(noted)
}
