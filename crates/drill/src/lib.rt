// The drill: one operation over a sheet, an output and a lent work area. Definitions stand in specs/.
#![tactic(auto)]

ghost use Rattle.std.specs.Prelude.{◌≡◌};
ghost use Rattle.cluster.specs.Refusals.{outcome_told};
ghost use Rattle.drill.specs.Listing.{rows_for_def, drill_of};

mod verbs; // the verbs by name
mod sheet; // the numbers of a line
mod lines; // which lines are steps
mod area; // the parties in the work area
mod servers; // the steps of servers in the work area
mod visits; // a packet to a server, and its reply back
mod rows; // the rows of a listing
mod run; // a sheet is run
mod steps; // one line's step
mod shown; // what a row shows of a step

use cluster::Refusal;

// Bytes of the work area.
pub const WORK: usize = area::WORK;

// Rows for which there must be room.
fn rows_for(lines: usize) -> usize
    ensures { result ≡ rows_for_def lines }
{
    lines.saturating_sub(1).max(1)
}

// Runs a sheet and prints its listing at the start of the output. The work area is cleared first, and left all 00h.
pub fn drill(sheet: &[u8], out: &mut [u8], work: &mut [u8]) -> Result<usize, Refusal>
    ensures { record { result = outcome_told result; output = out.new; work = work.new }
        ≡ drill_of sheet.now out.old work.old }
{
    if work.len() != WORK {
        return Err(Refusal::MemorySize);
    }
    if out.len() / rows::ROW < rows_for(columns::lines::count_lines(sheet)) {
        return Err(Refusal::Room);
    }
    server::blank::clear(work);
    let n = run::list(sheet, out, work);
    server::blank::clear(work);
    Ok(n)
}
