// What refuses a step: the tests stand in document 01's order, and tell the pending round where they let it go on.
// `as` stands where a number has no `From`; the proof says that it fits.
ghost use Rattle.std.specs.Prelude.{◌≡◌, ◌≤◌};
ghost use Rattle.std.specs.Option.{ForSome};
ghost use Rattle.std.specs.Result.{ForOk};
ghost use Rattle.cluster.specs.Config.{shelf};
ghost use Rattle.cluster.specs.Ranges.{top_faults};
ghost use Rattle.cluster.specs.Refusals.{number_told};
ghost use Rattle.protocol.specs.Client.{bad_client_def, of_write, write_refusal_def, read_refusal_def, make_refusal_def, abort_refusal_def};
ghost use Rattle.protocol.specs.ClientBytes.{in_hand, awaited};
ghost use Rattle.protocol.specs.Kinds.{round_number};
ghost use Rattle.client.specs.Steps.{awaited_by};

use crate::Party;
use cluster::Refusal;
use protocol::rounds::Round;

// A call is in hand.
fn is_pending(call: protocol::Call) -> bool
    ensures { result ≡ in_hand call }
{
    Round::of(call.tally.round).is_some()
}

// The pending round, if a call is in hand.
pub(crate) fn pending(call: protocol::Call) -> Option<Round>
    ensures kind { awaited_by result ≡ awaited call }
    ensures number { ForSome result (λ round. round_number round ≡ call.tally.round) }
{
    Round::of(call.tally.round)
}

// Refusal 5 in the pending round: a client outside 1 to 16; in a write's rounds one outside 1 to 8.
pub(crate) fn bad_client(round: Option<Round>, client: usize) -> bool
    ensures { result ≡ bad_client_def (of_write (awaited_by round)) client }
{
    let top = match round {
        Some(Round::Clock | Round::Store | Round::Complete) => cluster::TOP_WRITER,
        Some(Round::Collect | Round::Filter | Round::Repair) | None => cluster::TOP_CLIENT,
    };
    cluster::outside(1, top, client)
}

pub(crate) fn write_refusal(party: Party, n: usize, call: protocol::Call) -> Result<(), Refusal>
    ensures { number_told result ≡ write_refusal_def (shelf party.t) party.client n (in_hand call) call.number }
{
    if cluster::outside(1, cluster::TOP_FAULTS, party.t) {
        return Err(Refusal::Faults);
    }
    if cluster::outside(1, cluster::TOP_WRITER, party.client) {
        return Err(Refusal::Client);
    }
    if n > cluster::TOP_LENGTH {
        return Err(Refusal::Length);
    }
    if is_pending(call) {
        return Err(Refusal::Hand);
    }
    if cluster::TOP_NUMBER <= call.number as usize {
        return Err(Refusal::Numbers);
    }
    Ok(())
}

pub(crate) fn read_refusal(party: Party, call: protocol::Call) -> Result<(), Refusal>
    ensures { number_told result ≡ read_refusal_def (shelf party.t) party.client (in_hand call) call.number }
{
    if cluster::outside(1, cluster::TOP_FAULTS, party.t) {
        return Err(Refusal::Faults);
    }
    if cluster::outside(1, cluster::TOP_CLIENT, party.client) {
        return Err(Refusal::Client);
    }
    if is_pending(call) {
        return Err(Refusal::Hand);
    }
    if cluster::TOP_NUMBER <= call.number as usize {
        return Err(Refusal::Numbers);
    }
    Ok(())
}

// S, by the t that is lent; cluster has it by a byte.
pub(crate) fn servers(t: usize) -> usize
    requires { t ≤ top_faults }
    ensures { result ≡ (shelf t).servers }
{
    cluster::servers(t as u8)
}

// The pending round, or what refuses its packet for a server.
pub(crate) fn round_to_make(
    party: Party,
    server: usize,
    call: protocol::Call,
    room: usize,
) -> Result<Round, Refusal>
    ensures refusal { number_told result ≡ make_refusal_def (shelf party.t) party.client server (awaited call) room }
    ensures round { ForOk result (λ round. round_number round ≡ call.tally.round) }
{
    let pending = pending(call);
    if cluster::outside(1, cluster::TOP_FAULTS, party.t) {
        return Err(Refusal::Faults);
    }
    if cluster::outside(1, servers(party.t), server) {
        return Err(Refusal::Server);
    }
    if bad_client(pending, party.client) {
        return Err(Refusal::Client);
    }
    let round = pending.ok_or(Refusal::Hand)?;
    if room < cluster::PACKET_ROOM {
        return Err(Refusal::Room);
    }
    Ok(round)
}

// What refuses the packet of the pending round for a server.
pub fn make_refusal(
    party: Party,
    server: usize,
    call: protocol::Call,
    room: usize,
) -> Result<(), Refusal>
    ensures { number_told result ≡ make_refusal_def (shelf party.t) party.client server (awaited call) room }
{
    round_to_make(party, server, call, room)?;
    Ok(())
}

// The pending round, or what refuses to give it up.
pub(crate) fn round_to_abort(party: Party, call: protocol::Call) -> Result<Round, Refusal>
    ensures refusal { number_told result ≡ abort_refusal_def (shelf party.t) party.client (awaited call) }
    ensures round { ForOk result (λ round. round_number round ≡ call.tally.round) }
{
    let pending = pending(call);
    if cluster::outside(1, cluster::TOP_FAULTS, party.t) {
        return Err(Refusal::Faults);
    }
    if bad_client(pending, party.client) {
        return Err(Refusal::Client);
    }
    pending.ok_or(Refusal::Hand)
}
