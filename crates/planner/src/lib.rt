// A plan of a lab: what its packets and memories take. Definitions stand in specs/Plan.
// `as` stands where a number has no `From`; the proof says that it fits.
#![tactic(auto)]

ghost use Rattle.std.specs.Prelude.{◌≡◌, ◌+◌, ◌≤◌};
ghost use Rattle.cluster.specs.Config.{shelf};
ghost use Rattle.cluster.specs.Refusals.{number_told};
ghost use Rattle.cluster.specs.Ranges.{top_faults, most_servers, top_client, top_length, capacity};
ghost use Rattle.erasure.specs.Fragments.{table};
ghost use Rattle.planner.specs.Plan.{stored_size_def, kind_sizes, filter_size, held_sizes, packet_counts, fields_after, plan_refusal_def, plan_told, plan_step};

use cluster::Refusal;

// Kinds 0, which is none, to 12; counts of candidates, 0 to S; forms of a reply to filter; numbers of packets.
pub const KINDS: usize = 13;

pub const FILTERS: usize = cluster::MOST_SERVERS + 1;

pub const HELD: usize = 2;

pub const PACKETS: usize = 6;

// What is planned.
#[derive(Clone, Copy)]
pub struct LabPlan {
    pub kinds: [usize; KINDS], // bytes of a packet, by its kind; 0 for kinds 9 and 10
    pub filters: [usize; FILTERS], // bytes of kind 9, by its count of candidates; 0 above S
    pub held: [usize; HELD], // bytes of kind 10, by its byte
    pub packets: [usize; PACKETS], // requests and replies of a write, of the reads, and of the reads if each is repaired
    pub memory: usize, // bytes that the fields of a server's memory take
}

// What is asked for is in its ranges.
fn accept(t: usize, length: usize, readers: usize, stores: usize) -> Result<(), Refusal>
    ensures { number_told result ≡ plan_refusal_def t length readers stores }
{
    if cluster::outside(1, cluster::TOP_FAULTS, t) {
        return Err(Refusal::Faults);
    }
    if cluster::outside(1, cluster::TOP_CLIENT, readers) {
        return Err(Refusal::Client);
    }
    if length > cluster::TOP_LENGTH {
        return Err(Refusal::Length);
    }
    if cluster::CAPACITY < stores {
        return Err(Refusal::Stores);
    }
    Ok(())
}

fn kinds(t: u8, length: u32) -> [usize; KINDS]
    requires { (t ≤ top_faults) × (length ≤ top_length) }
    ensures { result ≡ kind_sizes (shelf t) length }
{
    let head = wire::sizes::HEAD;
    let stamp = head + wire::sizes::STAMP;
    let store = head + stored_size(t, length);
    let candidate = head + wire::sizes::candidate_size(t);
    [
        0,
        head,
        stamp,
        store,
        head + 1,
        candidate,
        head,
        head,
        candidate,
        0,
        0,
        candidate,
        head,
    ]
}

// A stored write of a content of so many bytes: a stamp and a share.
fn stored_size(t: u8, length: u32) -> usize
    requires { (t ≤ top_faults) × (length ≤ top_length) }
    ensures { result ≡ stored_size_def (shelf t) length }
{
    wire::sizes::STAMP + wire::sizes::share_size(t, length)
}

fn filters(t: u8) -> [usize; FILTERS]
    requires { t ≤ top_faults }
    ensures { result ≡ table (most_servers + 1) (filter_size (shelf t)) }
{
    let mut out = [0usize; FILTERS];
    let candidate = wire::sizes::candidate_size(t);
    for count in 0..=cluster::servers(t) {
        out[count] = wire::sizes::HEAD + (1 + count * candidate);
    }
    out
}

fn held(t: u8, length: u32) -> [usize; HELD]
    requires { (t ≤ top_faults) × (length ≤ top_length) }
    ensures { result ≡ held_sizes (shelf t) length }
{
    let without = wire::sizes::HEAD + wire::sizes::HELD;
    [without, without + wire::sizes::share_size(t, length)]
}

fn packets(t: u8, readers: usize) -> [usize; PACKETS]
    requires { (t ≤ top_faults) × (readers ≤ top_client) }
    ensures { result ≡ packet_counts (shelf t) readers }
{
    let servers = cluster::servers(t);
    let write = 3 * servers;
    let reads = readers * (2 * servers);
    let repaired = readers * (3 * servers);
    [write, write, reads, reads, repaired, repaired]
}

fn memory(t: u8, length: u32, stores: usize) -> usize
    requires { (t ≤ top_faults) × (length ≤ top_length) × (stores ≤ capacity) }
    ensures { result ≡ fields_after (shelf t) length stores }
{
    server::memory::writes_place(t) + stores * stored_size(t, length)
}

// What a shelf with at most t liars takes, for contents of so many bytes, so many clients that read together, and so many stores that a server
// keeps.
pub fn plan(t: usize, length: usize, readers: usize, stores: usize) -> Result<LabPlan, Refusal>
    ensures { plan_told result ≡ plan_step t length readers stores }
{
    accept(t, length, readers, stores)?;
    let faults = t as u8;
    let size = length as u32;
    Ok(LabPlan {
        kinds: kinds(faults, size),
        filters: filters(faults),
        held: held(faults, size),
        packets: packets(faults, readers),
        memory: memory(faults, size, stores),
    })
}
