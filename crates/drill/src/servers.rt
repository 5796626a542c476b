// The steps of servers in the work area.
// `as` stands where a number has no `From`; the proof says that it fits.
ghost use Rattle.std.specs.Prelude.{◌≡◌, ◌+◌, ◌≤◌, length, replicate};
ghost use Rattle.cluster.specs.Ranges.{most_servers, memory_size, key_size, top_faults};
ghost use Rattle.cluster.specs.Refusals.{number_told, outcome_told};
ghost use Rattle.protocol.specs.Primitives.{real};
ghost use Rattle.protocol.specs.ServerBytes.{server_take, blank_step};
ghost use Rattle.runs.specs.Runs.{result_of};
ghost use Rattle.server.specs.Blank.{blank_latest_def};
ghost use Rattle.drill.specs.Listing.{work_size};
ghost use Rattle.drill.specs.Steps.{drill_shelf, blank_line_def, shown};
ghost use Rattle.drill.specs.Moves.{DoneIn};
ghost use Rattle.drill.specs.Area.{server_at_def, clients_at, memory_in, ServesAs, BlanksAs};

use cluster::Refusal;

// The place of a server's memory.
fn server_at(server: usize) -> usize
    requires { (1 ≤ server) × (server ≤ most_servers) }
    ensures { (result ≡ server_at_def server) × (result + memory_size ≤ clients_at) }
{
    cluster::MEMORY * (server - 1)
}

// A server takes a packet. Its key is 32 bytes of its number.
pub(crate) fn serve(
    work: &mut [u8],
    server: usize,
    packet: &[u8],
    out: &mut [u8],
) -> Result<usize, Refusal>
    requires { ((1 ≤ server) × (server ≤ most_servers)) × (length work.old ≡ work_size) }
    ensures { ServesAs (server_take real (memory_in work.old server) (replicate key_size server) packet.now
        out.old) work.old server work.new out.new (outcome_told result) }
{
    let a = server_at(server);
    let key = [server as u8; cluster::KEY];
    server::take::take(&mut work[a..a + cluster::MEMORY], &key, packet, out)
}

// A server's latest candidate becomes blank.
pub(crate) fn blank_latest(work: &mut [u8], server: usize)
    requires { ((1 ≤ server) × (server ≤ most_servers)) × (length work.old ≡ work_size) }
    ensures { BlanksAs (blank_latest_def (memory_in work.old server)) work.old server work.new }
{
    let a = server_at(server);
    let _ = server::blank::blank_latest(&mut work[a..a + cluster::MEMORY]);
}

// A server is made blank.
pub(crate) fn blank(work: &mut [u8], t: usize, server: usize)
    requires { ((1 ≤ server) × (server ≤ most_servers)) × (length work.old ≡ work_size) }
    ensures { BlanksAs (blank_step (memory_in work.old server) t server) work.old server work.new }
{
    let a = server_at(server);
    let _ = server::blank::blank(&mut work[a..a + cluster::MEMORY], t, server);
}

// A server's latest candidate becomes blank, by a line of the sheet.
pub(crate) fn blank_line(work: &mut [u8], t: usize, server: usize) -> Result<(), Refusal>
    requires { ((1 ≤ t) × (t ≤ top_faults)) × (length work.old ≡ work_size) }
    ensures { DoneIn t (λ m. blank_line_def (drill_shelf t) m server) work.old work.new
        (shown (result_of (number_told result))) }
{
    if cluster::outside(1, cluster::servers(t as u8), server) {
        return Err(Refusal::Server);
    }
    blank_latest(work, server);
    Ok(())
}
