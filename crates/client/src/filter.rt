// The filter round: a reply is kept, and once a quorum has replied the round is decided.
// `as` stands where a number has no `From`; the proof says that it fits.
ghost use Rattle.std.specs.Prelude.{◌≡◌, Ok, List, ℕ, suc, ◌≤◌, ◌<◌, ◌+◌, ◌*◌, ◌-◌, length};
ghost use Rattle.cluster.specs.Config.{shelf};
ghost use Rattle.cluster.specs.Ranges.{top_faults, top_length, most_servers, content_room};
ghost use Rattle.protocol.specs.declared.Taken.TheVariants as taken;
ghost use Rattle.protocol.specs.Values.{label_of};
ghost use Rattle.protocol.specs.View.{kept_size, chosen_place, candidate_slot, candidates_in, replies_place, reply_slot};
ghost use Rattle.format.specs.Reading.{put};
ghost use Rattle.decide.specs.Decided.{tags_place_def};
ghost use Rattle.client.specs.Answers.{answered};
ghost use Rattle.client.specs.Steps.{Ready, TakesAs};
ghost use Rattle.client.specs.Filter.{repair_bytes, repair_call, found_at, judged_in};

use crate::answers::Answered;
use crate::{Party, answers, kept, rounds};
use protocol::rounds::Round;

// The reply's body at its server's slot.
fn put_reply(kept: &mut [u8], server: usize, body: &[u8])
    requires { (1 ≤ server) × ((server ≤ most_servers) × ((length kept.old ≡ kept_size) × (length body.now ≤ reply_slot))) }
    ensures { kept.new ≡ put kept.old (replies_place + reply_slot * (server - 1)) body.now }
{
    kept::write_at(
        kept,
        wire::kept::REPLIES + wire::kept::REPLY_SLOT * (server - 1),
        body,
    );
}

// The slot of the chosen candidate and the server that leads its group, on a shelf of t.
#[derive(Clone, Copy)]
struct Led {
    t: usize,
    slot: usize,
    server: usize,
}

// Where the tags stand in a reply of a content of n bytes.
fn tags_at(t: usize, n: usize) -> usize
    requires { (t ≤ top_faults) × (n ≤ top_length) }
    ensures { (result ≡ tags_place_def t n) × (result ≤ 2048) }
{
    decide::tags_at(t as u8, n as u32)
}

// The chosen candidate with the tags in its leader's reply, of a content of n bytes.
fn put_repair(bytes: &mut [u8], kept: &[u8], led: Led, n: usize)
    requires { (led.t ≤ top_faults) × ((led.slot < most_servers) × ((1 ≤ led.server) × ((led.server ≤ most_servers) × ((n ≤ top_length)
        × ((length kept.now ≡ kept_size) × (candidate_slot ≤ length bytes.old)))))) }
    ensures { bytes.new
        ≡ put bytes.old 0 (repair_bytes led.t kept.now led.slot led.server n) }
{
    let name = wire::bytes::part(
        kept,
        wire::kept::CANDIDATES + wire::kept::CANDIDATE_SLOT * led.slot,
        wire::sizes::NAME,
    );
    let at = wire::kept::REPLIES + wire::kept::REPLY_SLOT * (led.server - 1) + tags_at(led.t, n);
    let tags = wire::bytes::part(kept, at, wire::sizes::tags_size(led.t as u8));
    kept::write_at(bytes, 0, name);
    kept::write_at(bytes, wire::sizes::NAME, tags);
}

// The repair round of a call, with a content of n bytes.
fn repairing(call: protocol::Call, n: u16) -> Answered
    ensures { result ≡ record { answer = taken.More; call = repair_call call n } }
{
    answers::more(answers::enter(protocol::Call { length: n, ..call }, Some(Round::Repair)))
}

// Line 155. Amended: the content waits, and the candidate has the tags of the proven group.
fn repair_with(call: protocol::Call, kept: &mut [u8], led: Led, content: &[u8]) -> Answered
    requires { (led.t ≤ top_faults) × ((led.slot < most_servers) × ((1 ≤ led.server) × ((led.server ≤ most_servers)
        × ((length kept.old ≡ kept_size) × (length content.now ≤ top_length))))) }
    ensures { (result ≡ record { answer = taken.More; call = repair_call call (length content.now) })
        × (kept.new ≡ put (put kept.old 0 content.now) chosen_place
        (repair_bytes led.t kept.old led.slot led.server (length content.now))) }
{
    let mut bytes = [0u8; wire::kept::CANDIDATE_SLOT];
    put_repair(&mut bytes, kept, led, content.len());
    kept::write_at(kept, 0, content);
    let size = wire::sizes::candidate_size(led.t as u8);
    kept::write_at(kept, wire::kept::CHOSEN, wire::bytes::part(&bytes, 0, size));
    repairing(call, content.len() as u16)
}

// Number and writer of the stamp in slot i.
fn label_in(kept: &[u8], t: usize, i: usize) -> protocol::Label
    requires { i < most_servers }
    ensures { result ≡ label_of (candidates_in (shelf t) kept.now (suc i)).stamp }
{
    wire::values::label_at(wire::bytes::part(
        kept,
        wire::kept::CANDIDATES + wire::kept::CANDIDATE_SLOT * i,
        wire::kept::CANDIDATE_SLOT,
    ))
}

// Lines 143 to 145: a candidate is chosen, and a server leads its group.
fn found(
    call: protocol::Call,
    kept: &mut [u8],
    led: Led,
    content: &[u8],
    out: &mut [u8],
) -> Answered
    requires { (led.t ≤ top_faults) × ((led.slot < most_servers) × ((1 ≤ led.server) × ((led.server ≤ most_servers)
        × ((length kept.old ≡ kept_size) × ((length content.now ≤ top_length) × (content_room ≤ length out.old)))))) }
    ensures { answered call (Ok result) kept.new out.new
        ≡ found_at led.t call kept.old out.old led.slot led.server content.now }
{
    if decide::same_tags(kept, led.t, led.slot, led.server) {
        let label = label_in(kept, led.t, led.slot);
        return answers::deliver(call, label, content, out);
    }
    repair_with(call, kept, led, content)
}

// Lines 142 to 146: what the round has decided. The content stands apart until it is delivered, so that repair leaves the output as it was.
fn judge(call: protocol::Call, kept: &mut [u8], t: usize, out: &mut [u8]) -> Answered
    requires { (1 ≤ t) × ((t ≤ top_faults) × ((length kept.old ≡ kept_size) × (content_room ≤ length out.old))) }
    ensures { answered call (Ok result) kept.new out.new
        ≡ judged_in t call kept.old out.old }
{
    let mut room = [0u8; cluster::CONTENT_ROOM];
    match decide::decide(kept, call.tally.marks, t, &mut room).unwrap() {
        decide::Decision::Wait => answers::more(call),
        decide::Decision::Blank => Answered {
            answer: protocol::Taken::Blank,
            call: answers::enter(call, None),
        },
        decide::Decision::Found(slot, server, n) => {
            let content = wire::bytes::part(&room, 0, n);
            found(call, kept, Led { t, slot, server }, content, out)
        }
    }
}

// Lines 151 to 153.
pub(crate) fn take_filter(
    call: protocol::Call,
    kept: &mut [u8],
    party: Party,
    head: protocol::Head,
    reply: &[u8],
    out: &mut [u8],
) -> Answered
    requires { Ready party.t party.client call reply.now head × ((call.tally.round ≡ 5) × ((length kept.old ≡ kept_size)
        × (content_room ≤ length out.old))) }
    ensures { (writers : List ℕ) (keys : List (List ℕ))
        → TakesAs party.t party.client writers keys call kept.old reply.now out.old (Ok result) kept.new
        out.new }
{
    let server = usize::from(head.server);
    put_reply(kept, server, wire::bytes::rest(reply, wire::sizes::HEAD));
    let noted = answers::note_reply(call, party.t, server);
    if rounds::is_full(party.t, noted.tally) {
        return judge(noted, kept, party.t, out);
    }
    answers::more(noted)
}
