// What a row shows of a step: its answer, in document 01's numbers.
// `as` stands where a number has no `From`; the proof says that it fits.
ghost use Rattle.std.specs.Prelude.{◌≡◌, [], ◌≤◌, length};
ghost use Rattle.cluster.specs.Ranges.{content_room};
ghost use Rattle.cluster.specs.Refusals.{refusal_number, number_told};
ghost use Rattle.protocol.specs.Answers.{taken_told, aborted_told};
ghost use Rattle.protocol.specs.Client.{refused};
ghost use Rattle.runs.specs.Runs.{result_of, result_by};
ghost use Rattle.drill.specs.Steps.{shown_as, shown};

use cluster::Refusal;
use protocol::{Aborted, Answer, Taken};

// Result, stamp number, length, first byte.
#[derive(Clone, Copy)]
pub struct Shown {
    pub result: u32,
    pub stamp: u32,
    pub length: u32,
    pub first: u32,
}

// An answer without a content.
fn plain(a: Answer) -> Shown
    ensures { result ≡ shown_as a [] }
{
    Shown {
        result: u32::from(a.result),
        stamp: a.number,
        length: 0,
        first: 0,
    }
}

pub(crate) fn refused(refusal: Refusal) -> Shown
    ensures { result ≡ shown (refused (refusal_number refusal)) }
{
    plain(Answer::from(refusal))
}

// A call that has begun goes on.
pub(crate) fn begun(told: Result<(), Refusal>) -> Shown
    ensures { result ≡ shown (result_of (number_told told)) }
{
    plain(Answer::from(told.map(|_| Taken::More)))
}

pub(crate) fn given_up(told: Result<Aborted, Refusal>) -> Shown
    ensures { result ≡ shown (result_by (aborted_told told) []) }
{
    plain(Answer::from(told))
}

// A content is read from the output.
pub(crate) fn taken(told: Result<Taken, Refusal>, out: &[u8]) -> Shown
    requires { length out.now ≤ content_room }
    ensures { result ≡ shown (result_by (taken_told told) out.now) }
{
    let a = Answer::from(told);
    let content = wire::bytes::part(out, 0, usize::from(a.length));
    Shown {
        result: u32::from(a.result),
        stamp: a.number,
        length: content.len() as u32,
        first: u32::from(wire::bytes::byte_at(content, 0)),
    }
}
