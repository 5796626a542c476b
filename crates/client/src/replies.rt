// Whether a packet is a reply that the pending call awaits.
ghost use Rattle.std.specs.Prelude.{◌≡◌, ◌≤◌};
ghost use Rattle.std.specs.Result.{ForOk};
ghost use Rattle.cluster.specs.Ranges.{most_servers};
ghost use Rattle.cluster.specs.Refusals.{number_told};
ghost use Rattle.protocol.specs.Kinds.{kind_number, round_number};
ghost use Rattle.protocol.specs.View.{marked};
ghost use Rattle.client.specs.Steps.{foreign, other, reply_refusal_def};

use crate::{Party, refusals};
use cluster::Refusal;
use protocol::kinds::Kind;
use protocol::rounds::Round;
use wire::packet::Passed;

// Another shelf's packet, or another client's.
fn is_foreign(head: protocol::Head, party: Party) -> bool
    ensures { result ≡ foreign party.t party.client head }
{
    usize::from(head.t) != party.t || usize::from(head.client) != party.client
}

// The server has replied in this round.
fn is_marked(tally: protocol::Tally, server: u8) -> bool
    requires { (1 ≤ server) × (server ≤ most_servers) }
    ensures { result ≡ marked tally.marks server }
{
    tally.marks[usize::from(server) - 1] != 0
}

// No reply of that call and kind, or of a server that has replied.
fn is_other(passed: Passed, call: protocol::Call, kind: Kind) -> bool
    requires { (1 ≤ passed.head.server) × (passed.head.server ≤ most_servers) × (kind_number passed.kind ≡ passed.head.kind) }
    ensures { result ≡ other call (kind_number kind) passed.head }
{
    passed.head.call != call.number
        || passed.kind != kind
        || is_marked(call.tally, passed.head.server)
}

// The pending round, which awaits the reply; or what refuses it: 8, 12, 13.
pub(crate) fn round_to_take(
    passed: Passed,
    call: protocol::Call,
    party: Party,
) -> Result<Round, Refusal>
    requires { (1 ≤ passed.head.server) × (passed.head.server ≤ most_servers) × (kind_number passed.kind ≡ passed.head.kind) }
    ensures refusal { number_told result ≡ reply_refusal_def party.t party.client call passed.head }
    ensures round { ForOk result (λ round. round_number round ≡ call.tally.round) }
{
    if is_foreign(passed.head, party) {
        return Err(Refusal::Addressee);
    }
    let round = refusals::pending(call).ok_or(Refusal::Hand)?;
    if is_other(passed, call, round.reply()) {
        return Err(Refusal::Reply);
    }
    Ok(round)
}
