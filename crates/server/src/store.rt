// Store: a write is kept unless its stamp is held or the history is full.
// `as` stands where a number has no `From`; the proof says that it fits.
ghost use Rattle.std.specs.Prelude.{◌≡◌, [], ◌∷◌, ◌<◌};
ghost use Rattle.cluster.specs.Ranges.{capacity};
ghost use Rattle.cluster.specs.Refusals.{outcome_told};
ghost use Rattle.protocol.specs.declared.kinds.Kind.TheVariants as kind;
ghost use Rattle.protocol.specs.Kinds.{kind_number, code_number};
ghost use Rattle.wire.specs.Make.{packet_step};
ghost use Rattle.server.specs.Answers.{reply_head_def, AnswersOf, kept_bytes};

use crate::memory::{COUNT, Opened, find};
use cluster::Refusal;
use protocol::codes::Code;
use protocol::kinds::Kind;
use wire::bytes::rest;

// The reply: what was done with the write.
fn store_reply(head: protocol::Head, code: Code, out: &mut [u8]) -> Result<usize, Refusal>
    ensures { record { result = outcome_told result; output = out.new }
        ≡ packet_step (reply_head_def head (kind_number kind.StoreReply)) (code_number code ∷ []) [] out.old }
{
    crate::answers::reply(head, Kind::StoreReply, &[code.number()], out)
}

// One more stored write, after the others.
fn keep_write(memory: &mut [u8], opened: Opened, write: &[u8])
    requires { opened.count < capacity }
    ensures { memory.new ≡ kept_bytes memory.old opened write.now }
{
    wire::make::put_byte(memory, COUNT, (opened.count + 1) as u8);
    wire::make::put(memory, opened.end, write);
}

pub(crate) fn store(
    memory: &mut [u8],
    head: protocol::Head,
    packet: &[u8],
    opened: Opened,
    out: &mut [u8],
) -> Result<usize, Refusal>
    ensures { AnswersOf kind.Store memory.old packet.now out.old head opened
        (record { result = outcome_told result; memory = memory.new; output = out.new }) }
{
    let write = rest(packet, wire::sizes::HEAD);
    if find(memory, opened, write).is_some() {
        return store_reply(head, Code::Held, out);
    }
    if cluster::CAPACITY <= opened.count {
        return store_reply(head, Code::Full, out);
    }
    keep_write(memory, opened, write);
    store_reply(head, Code::Kept, out)
}
