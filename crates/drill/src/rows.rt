// The rows of a listing.
ghost use Rattle.std.specs.Prelude.{◌≡◌, ◌+◌, ◌≤◌, length};
ghost use Rattle.cluster.specs.Refusals.{refusal_number};
ghost use Rattle.format.specs.Reading.{put};
ghost use Rattle.protocol.specs.Answers.{refusals};
ghost use Rattle.drill.specs.Listing.{row_size, step_row, last_row};

use crate::sheet::Line;
use crate::shown::Shown;
use cluster::Refusal;
use protocol::Answer;

// Bytes of a row.
pub(crate) const ROW: usize = 65;

// Line, verb, client, round now, result, stamp number, length, first byte.
pub(crate) fn put_step(out: &mut [u8], at: usize, n: u32, l: Line, round: u32, s: Shown)
    requires { at + row_size ≤ length out.old }
    ensures { out.new ≡ put out.old at (step_row n l round s) }
{
    columns::printing::put_row(
        out,
        at,
        &[
            n, l.verb, l.client, round, s.result, s.stamp, s.length, s.first,
        ],
    );
}

// The line that ends the run, by what refuses it. Answers the place past it.
pub(crate) fn put_last(out: &mut [u8], at: usize, n: u32, refusal: Refusal) -> usize
    requires { at + row_size ≤ length out.old }
    ensures { (out.new ≡ put out.old at (last_row n (refusals + refusal_number refusal))) × (result ≡ at + row_size) }
{
    let result = u32::from(Answer::from(refusal).result);
    columns::printing::put_row(out, at, &[n, 0, 0, 0, result, 0, 0, 0])
}
