// A visit: a client's packet to a server, and its reply back.
// `as` stands where a number has no `From`; the proof says that it fits.
ghost use Rattle.std.specs.Prelude.{◌≡◌, ◌+◌, ◌≤◌, ◌<◌, length, replicate};
ghost use Rattle.cluster.specs.Config.{shelf};
ghost use Rattle.cluster.specs.Ranges.{most_servers, top_client, top_faults, key_size};
ghost use Rattle.cluster.specs.Refusals.{outcome_told};
ghost use Rattle.protocol.specs.ClientBytes.{client_make};
ghost use Rattle.drill.specs.Listing.{work_size};
ghost use Rattle.drill.specs.Steps.{drill_shelf, lent_to, visited, visit_line_def};
ghost use Rattle.drill.specs.Area.{call_in, kept_in, take_in_def, TakesAs};
ghost use Rattle.drill.specs.Moves.{DoneIn, RefusesAs};

use crate::area;
use crate::shown::Shown;
use cluster::Refusal;
use protocol::Taken;
use wire::bytes::part;

// Server i's key is 32 bytes of i.
fn server_keys() -> [[u8; cluster::KEY]; cluster::MOST_SERVERS]
    ensures { result ≡ (drill_shelf 0).keys }
{
    std::array::from_fn(
        |i|
            requires { i < most_servers }
            ensures { result ≡ replicate key_size (i + 1) }
        { [i as u8 + 1; cluster::KEY] },
    )
}

// The writers' key and the servers' as they are lent to a client: zeros to one that holds no keys.
fn lent_to(
    client: usize,
) -> (
    [u8; cluster::KEY],
    [[u8; cluster::KEY]; cluster::MOST_SERVERS],
)
    ensures { record { writers = result.0; keys = result.1 } ≡ lent_to (drill_shelf 0) client }
{
    if cluster::outside(1, cluster::TOP_WRITER, client) {
        return (
            [0; cluster::KEY],
            [[0; cluster::KEY]; cluster::MOST_SERVERS],
        );
    }
    ([255; cluster::KEY], server_keys())
}

// The packet of a client's round for a server.
fn make(
    work: &[u8],
    t: usize,
    client: usize,
    server: usize,
    out: &mut [u8],
) -> Result<usize, Refusal>
    requires { ((1 ≤ client) × (client ≤ top_client)) × (length work.now ≡ work_size) }
    ensures { record { result = outcome_told result; output = out.new } ≡ client_make t client server (call_in work.now client)
        (kept_in work.now client) out.old }
{
    client::packets::make_in(
        area::call_of(work, client),
        area::kept_of(work, client),
        client::Party { t, client },
        server,
        out,
    )
}

// A client takes a reply.
fn take(
    work: &mut [u8],
    t: usize,
    client: usize,
    reply: &[u8],
    out: &mut [u8],
) -> Result<Taken, Refusal>
    requires { ((1 ≤ client) × (client ≤ top_client)) × (length work.old ≡ work_size) }
    ensures { TakesAs (take_in_def t work.old client reply.now out.old) work.old client
        work.new out.new result }
{
    let call = area::call_of(work, client);
    let a = area::kept_at(client);
    let (writers, keys) = lent_to(client);
    let answered = client::taking::take_in(
        call,
        &mut work[a..a + wire::kept::KEPT],
        client::Party { t, client },
        &writers,
        &keys,
        reply,
        out,
    )?;
    area::put_call(work, client, answered.call);
    Ok(answered.answer)
}

// The packet to the server, and its reply back. The server has acted even if the client refuses.
fn visit(work: &mut [u8], t: usize, client: usize, server: usize) -> Shown
    requires { ((t ≤ top_faults) × (length work.old ≡ work_size)) × (((1 ≤ client) × (client ≤ top_client))
        × ((1 ≤ server) × (server ≤ (shelf t).servers))) }
    ensures { DoneIn t (λ m. visited (drill_shelf t) m client server) work.old work.new result }
{
    let mut packet = [0; cluster::PACKET_ROOM];
    let made = make(work, t, client, server, &mut packet).unwrap_or(0);
    let mut reply = [0; cluster::PACKET_ROOM];
    let sent = crate::servers::serve(work, server, part(&packet, 0, made), &mut reply).unwrap_or(0);
    let mut content = [0; cluster::CONTENT_ROOM];
    let taken = take(work, t, client, part(&reply, 0, sent), &mut content);
    crate::shown::taken(taken, &content)
}

// What refuses a visit before anything acts: what refuses its packet. A client outside 1 to 16 has no place in the area.
fn visit_refusal(work: &[u8], t: usize, client: usize, server: usize) -> Result<(), Refusal>
    requires { (1 ≤ t) × (t ≤ top_faults) }
    ensures { RefusesAs t work.now client server result }
{
    if cluster::outside(1, cluster::servers(t as u8), server) {
        return Err(Refusal::Server);
    }
    if cluster::outside(1, cluster::TOP_CLIENT, client) {
        return Err(Refusal::Client);
    }
    client::refusals::make_refusal(
        client::Party { t, client },
        server,
        area::call_of(work, client),
        cluster::PACKET_ROOM,
    )
}

pub(crate) fn visit_line(work: &mut [u8], t: usize, client: usize, server: usize) -> Shown
    requires { ((1 ≤ t) × (t ≤ top_faults)) × (length work.old ≡ work_size) }
    ensures { DoneIn t (λ m. visit_line_def (drill_shelf t) m client server) work.old work.new result }
{
    match visit_refusal(work, t, client, server) {
        Ok(()) => visit(work, t, client, server),
        Err(refusal) => crate::shown::refused(refusal),
    }
}
