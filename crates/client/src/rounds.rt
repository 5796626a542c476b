// The tally of a round: which servers have replied, how many, and whether they are a quorum. The marks decide; the count is made of them anew.
// `as` stands where a number has no `From`; the proof says that it fits.
ghost use Rattle.std.specs.Prelude.{◌≡◌, ◌≤◌, leb};
ghost use Rattle.cluster.specs.Config.{shelf, quorum};
ghost use Rattle.cluster.specs.Ranges.{top_faults, most_servers};
ghost use Rattle.protocol.specs.Rules.{count_to};
ghost use Rattle.protocol.specs.View.{marked};
ghost use Rattle.protocol.specs.ClientBytes.{fresh};
ghost use Rattle.client.specs.Rounds.{counted, noted, with_tally_def};
ghost use Rattle.client.specs.Steps.{number_of};

use crate::refusals;
use protocol::rounds::Round;

// A round begins; none: no call is in hand.
pub(crate) fn fresh_tally(round: Option<Round>) -> protocol::Tally
    ensures { result ≡ fresh (number_of round) }
{
    protocol::Tally {
        round: match round {
            Some(round) => round.number(),
            None => 0,
        },
        count: 0,
        marks: [0; cluster::MOST_SERVERS],
    }
}

pub(crate) fn with_tally(call: protocol::Call, tally: protocol::Tally) -> protocol::Call
    ensures { result ≡ with_tally_def call tally }
{
    protocol::Call { tally, ..call }
}

// How many of the first n servers are marked.
fn count(marks: [u8; cluster::MOST_SERVERS], n: usize) -> u8
    requires { n ≤ most_servers }
    ensures { result ≡ count_to n (marked marks) }
{
    marks[..n].iter().filter(|mark| **mark != 0).count() as u8
}

// The count is that of the marks.
pub(crate) fn recount(t: usize, tally: protocol::Tally) -> protocol::Tally
    requires { t ≤ top_faults }
    ensures { result ≡ counted (shelf t) tally }
{
    protocol::Tally {
        count: count(tally.marks, refusals::servers(t)),
        ..tally
    }
}

// The server has replied in this round.
pub(crate) fn note(t: usize, mut tally: protocol::Tally, server: usize) -> protocol::Tally
    requires { (t ≤ top_faults) × ((1 ≤ server) × (server ≤ most_servers)) }
    ensures { result ≡ noted (shelf t) tally server }
{
    tally.marks[server - 1] = 1;
    recount(t, tally)
}

// A quorum has replied.
pub(crate) fn is_full(t: usize, tally: protocol::Tally) -> bool
    requires { t ≤ top_faults }
    ensures { result ≡ leb (quorum (shelf t)) tally.count }
{
    quorum(t) <= usize::from(tally.count)
}

// How many replies end a round.
fn quorum(t: usize) -> usize
    requires { t ≤ top_faults }
    ensures { result ≡ quorum (shelf t) }
{
    refusals::servers(t) - t
}
