// The parties of a drill in the work area: what each holds, and the steps of clients on it.
ghost use Rattle.std.specs.Prelude.{◌≡◌, ◌+◌, ◌≤◌, length};
ghost use Rattle.cluster.specs.Ranges.{top_client, most_servers};
ghost use Rattle.protocol.specs.View.{kept_size};
ghost use Rattle.drill.specs.Listing.{work_size};
ghost use Rattle.drill.specs.Area.{client_slot, client_at_def, kept_at, call_in, kept_in, put_call_def, write_in_def, read_in_def, give_up_in_def, BeginsAs, StopsAs};

use cluster::Refusal;

// Bytes of the work area, the place of the clients, and the bytes of a client's slot.
pub(crate) const WORK: usize = 2097152;

const CLIENTS: usize = 1048576;

const SLOT: usize = 65536;

// The place of a client's slot.
fn client_at(client: usize) -> usize
    requires { (1 ≤ client) × (client ≤ top_client) }
    ensures { (result ≡ client_at_def client) × (result + client_slot ≤ work_size) }
{
    CLIENTS + SLOT * (client - 1)
}

// A client's small state.
pub(crate) fn call_of(work: &[u8], client: usize) -> protocol::Call
    requires { (1 ≤ client) × (client ≤ top_client) }
    ensures { result ≡ call_in work.now client }
{
    state::read(wire::bytes::part(work, client_at(client), state::SIZE))
}

// The place of the bytes that a client keeps.
pub(crate) fn kept_at(client: usize) -> usize
    requires { (1 ≤ client) × (client ≤ top_client) }
    ensures { (result ≡ kept_at client) × (result + kept_size ≤ work_size) }
{
    client_at(client) + state::KEPT_PLACE
}

// The bytes that a client keeps.
pub(crate) fn kept_of(work: &[u8], client: usize) -> &[u8]
    requires { (1 ≤ client) × (client ≤ top_client) }
    ensures { result.now ≡ kept_in work.now client }
{
    wire::bytes::part(work, kept_at(client), wire::kept::KEPT)
}

pub(crate) fn put_call(work: &mut [u8], client: usize, call: protocol::Call)
    requires { ((1 ≤ client) × (client ≤ top_client)) × (length work.old ≡ work_size) }
    ensures { (work.new ≡ put_call_def work.old client call) × (length call.tally.marks ≡ most_servers) }
{
    let a = client_at(client);
    state::put(&mut work[a..a + state::KEPT_PLACE], call);
}

// A write begins.
pub(crate) fn begin_write(
    work: &mut [u8],
    t: usize,
    client: usize,
    content: &[u8],
    nonce: &[u8; cluster::KEY],
) -> Result<(), Refusal>
    requires { ((1 ≤ client) × (client ≤ top_client)) × (length work.old ≡ work_size) }
    ensures { BeginsAs (write_in_def t work.old client content.now nonce.now) work.old client
        work.new result }
{
    let call = call_of(work, client);
    let a = kept_at(client);
    let call = client::begin::begin_write_in(
        call,
        &mut work[a..a + wire::kept::KEPT],
        client::Party { t, client },
        content,
        nonce,
    )?;
    put_call(work, client, call);
    Ok(())
}

// A read begins.
pub(crate) fn begin_read(work: &mut [u8], t: usize, client: usize) -> Result<(), Refusal>
    requires { ((1 ≤ client) × (client ≤ top_client)) × (length work.old ≡ work_size) }
    ensures { BeginsAs (read_in_def t work.old client) work.old client work.new result }
{
    let call = call_of(work, client);
    let a = kept_at(client);
    let call = client::begin::begin_read_in(
        call,
        &mut work[a..a + wire::kept::KEPT],
        client::Party { t, client },
    )?;
    put_call(work, client, call);
    Ok(())
}

// The call is given up.
pub(crate) fn give_up(
    work: &mut [u8],
    t: usize,
    client: usize,
) -> Result<protocol::Aborted, Refusal>
    requires { ((1 ≤ client) × (client ≤ top_client)) × (length work.old ≡ work_size) }
    ensures { StopsAs (give_up_in_def t work.old client) work.old client work.new result }
{
    let stopped = client::begin::give_up_in(call_of(work, client), client::Party { t, client })?;
    put_call(work, client, stopped.call);
    Ok(stopped.answer)
}
