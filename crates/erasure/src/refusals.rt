// The refusals of the operations, each list in document 01's order.
ghost use Rattle.std.specs.Prelude.{not, ◌≡◌, ◌*◌, ◌≤◌, eqb};
ghost use Rattle.std.specs.List.{list_any};
ghost use Rattle.cluster.specs.Ranges.{within, top_faults};
ghost use Rattle.cluster.specs.Refusals.{first_of, number_told};
ghost use Rattle.erasure.specs.Steps.{fragment_refusal_def, argument_checks, length_checks};
ghost use Rattle.erasure.specs.Weights.{weights_checks, weighed_refusal_def};

use cluster::Refusal;

// Whether a server is not from 1 to most.
fn server_outside(servers: &[usize], most: usize) -> bool
    ensures { result ≡ list_any (λ s. not (within 1 most s)) servers.now }
{
    servers.iter().any(|s| cluster::outside(1, most, *s))
}

// Whether given is not count times f. The product is not made: it could pass the largest number.
// Fragments of no bytes have none together, however many they are.
fn miscounted(given: usize, count: usize, f: usize) -> bool
    ensures { result ≡ not (eqb given (count * f)) }
{
    if f == 0 {
        given != 0
    } else {
        given % f != 0 || given / f != count
    }
}

// What is asked of a content's length, of the room for it and of its fragments, of which there are count.
fn lengths_refusal(
    t: usize,
    n: usize,
    count: usize,
    given: usize,
    room: usize,
) -> Result<(), Refusal>
    requires { (1 ≤ t) × (t ≤ top_faults) }
    ensures { number_told result ≡ first_of (length_checks t n count given room) }
{
    if n > cluster::TOP_LENGTH {
        return Err(Refusal::Length);
    }
    if room < cluster::CONTENT_ROOM {
        return Err(Refusal::Room);
    }
    if miscounted(given, count, crate::size(crate::threshold_of(t), n)) {
        return Err(Refusal::Fragments);
    }
    Ok(())
}

#[tactic(auto, unfolding(crate::specs::Steps::fragment_refusal_def))]
pub(crate) fn fragment_refusal(t: usize, server: usize, n: usize) -> Result<(), Refusal>
    ensures { number_told result ≡ fragment_refusal_def t server n }
{
    if cluster::outside(1, cluster::TOP_FAULTS, t) {
        return Err(Refusal::Faults);
    }
    if cluster::outside(1, crate::servers_of(t), server) {
        return Err(Refusal::Server);
    }
    if n > cluster::TOP_LENGTH {
        return Err(Refusal::Length);
    }
    Ok(())
}

// The refusals of the weights, but for too few different servers.
#[tactic(auto, unfolding(crate::specs::Weights::weights_checks))]
pub(crate) fn weights_refusal(t: usize, servers: &[usize]) -> Result<(), Refusal>
    ensures { number_told result ≡ first_of (weights_checks t servers.now) }
{
    if cluster::outside(1, cluster::TOP_FAULTS, t) {
        return Err(Refusal::Faults);
    }
    if server_outside(servers, crate::servers_of(t)) {
        return Err(Refusal::Server);
    }
    Ok(())
}

// The refusals of restoring, but for too few different servers.
pub(crate) fn restore_refusal(
    t: usize,
    n: usize,
    servers: &[usize],
    given: usize,
    room: usize,
) -> Result<(), Refusal>
    ensures { number_told result ≡ first_of (argument_checks t n servers.now given room) }
{
    weights_refusal(t, servers)?;
    lengths_refusal(t, n, servers.len(), given, room)
}

#[tactic(auto, unfolding(crate::specs::Weights::weighed_refusal_def))]
pub(crate) fn weighed_refusal(t: usize, n: usize, given: usize, room: usize) -> Result<(), Refusal>
    ensures { number_told result ≡ weighed_refusal_def t n given room }
{
    if cluster::outside(1, cluster::TOP_FAULTS, t) {
        return Err(Refusal::Faults);
    }
    lengths_refusal(t, n, crate::threshold_of(t), given, room)
}
