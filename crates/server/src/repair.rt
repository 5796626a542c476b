// Repair: the candidate becomes the latest if it is valid and higher.
ghost use Rattle.std.specs.Prelude.{◌≤◌};
ghost use Rattle.cluster.specs.Refusals.{outcome_told};
ghost use Rattle.protocol.specs.declared.kinds.Kind.TheVariants as kind;
ghost use Rattle.server.specs.Answers.{AnswersAs};
ghost use Rattle.server.specs.Valid.{RaisedAs};

use crate::memory::Opened;
use cluster::Refusal;
use protocol::kinds::Kind;
use wire::bytes::rest;

// A valid candidate is raised.
fn raise_valid(memory: &mut [u8], key: [u8; cluster::KEY], opened: Opened, candidate: &[u8])
    requires { 1 ≤ opened.server }
    ensures { RaisedAs memory.old key opened candidate.now memory.new }
{
    if crate::valid::valid(memory, key, opened, candidate) {
        crate::answers::raise(memory, candidate);
    }
}

pub(crate) fn repair(
    memory: &mut [u8],
    key: [u8; cluster::KEY],
    head: protocol::Head,
    packet: &[u8],
    opened: Opened,
    out: &mut [u8],
) -> Result<usize, Refusal>
    requires { 1 ≤ opened.server }
    ensures { AnswersAs kind.Repair memory.old key packet.now out.old head opened
        (record { result = outcome_told result; memory = memory.new; output = out.new }) }
{
    raise_valid(memory, key, opened, rest(packet, wire::sizes::HEAD));
    crate::answers::reply(head, Kind::RepairReply, &[], out)
}
