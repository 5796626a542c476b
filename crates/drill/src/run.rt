// A sheet is run: every line's step and its row.
// `as` stands where a number has no `From`; the proof says that it fits.
ghost use Rattle.std.specs.Prelude.{◌≡◌, true, ◌+◌, ◌*◌, ◌≤◌, ◌<◌, length, drop, replicate};
ghost use Rattle.cluster.specs.Ranges.{top_number, top_faults};
ghost use Rattle.columns.specs.Lines.{lines};
ghost use Rattle.drill.specs.Sheet.{is_step_def};
ghost use Rattle.drill.specs.Listing.{work_size, row_size, rows_for_def, ListsAs};
ghost use Rattle.drill.specs.Steps.{drill_shelf, start};
ghost use Rattle.drill.specs.Area.{Stands};
ghost use Rattle.drill.specs.Moves.{RowIn, RowsAs};

use crate::lines::{first_line, step_line};
use crate::rows::{ROW, put_last, put_step};
use crate::sheet::Line;
use cluster::Refusal;
use columns::lines::next_line;

// Every server of the shelf is made blank.
pub(crate) fn blank_servers(work: &mut [u8], t: usize)
    requires { ((1 ≤ t) × (t ≤ top_faults)) × ((length work.old ≡ work_size) × (work.old ≡ replicate (length work.old) 0)) }
    ensures { Stands t work.new (start (drill_shelf t)).machines }
{
    for server in 1..=cluster::servers(t as u8) {
        crate::servers::blank(work, t, server);
    }
}

// The step of line n and its row, at a place of the output. It counts a write that begins.
fn one_line(out: &mut [u8], work: &mut [u8], t: usize, at: usize, n: u32, begun: &mut u32, l: Line)
    requires { ((((1 ≤ t) × (t ≤ top_faults)) × (length work.old ≡ work_size)) × (begun.old < top_number))
        × ((is_step_def l ≡ true) × (at + row_size ≤ length out.old)) }
    ensures { RowIn t begun.old n l work.old work.new out.old at out.new begun.new }
{
    let shown = crate::steps::step(work, t, begun, l);
    let round = crate::steps::round_of(work, l.client as usize);
    put_step(out, at, n, l, round, shown);
}

// The rows of the lines from a place on, after the first line. Answers how many bytes they have. The next place is found behind each line, so no
// range counts the turns.
pub(crate) fn rows_from(
    sheet: &[u8],
    out: &mut [u8],
    work: &mut [u8],
    t: usize,
    from: usize,
) -> usize
    requires { (((1 ≤ t) × (t ≤ top_faults)) × Stands t work.old (start (drill_shelf t)).machines)
        × ((from ≤ length sheet.now) × (row_size * length (lines (drop from sheet.now)) ≤ length out.old)) }
    ensures { RowsAs t (lines (drop from sheet.now)) out.old out.new result }
{
    let mut at = from;
    let mut n = 2;
    let mut begun = 0;
    let mut done = 0;
    while at < sheet.len() {
        let Some(l) = step_line(sheet, at, n) else {
            return put_last(out, done, n, Refusal::Line);
        };
        one_line(out, work, t, done, n, &mut begun, l);
        at = next_line(sheet, at);
        n += 1;
        done += ROW;
    }
    done
}

// The listing of a sheet in a cleared work area. Answers how many bytes it has.
pub(crate) fn list(sheet: &[u8], out: &mut [u8], work: &mut [u8]) -> usize
    requires { ((length work.old ≡ work_size) × (work.old ≡ replicate (length work.old) 0))
        × (row_size * rows_for_def (length (lines sheet.now)) ≤ length out.old) }
    ensures { ListsAs sheet.now out.old out.new result }
{
    if sheet.is_empty() {
        return 0;
    }
    let Some(l) = first_line(sheet) else {
        return put_last(out, 0, 1, Refusal::Line);
    };
    let t = l.client as usize;
    if cluster::outside(1, cluster::TOP_FAULTS, t) {
        return put_last(out, 0, 1, Refusal::Faults);
    }
    blank_servers(work, t);
    rows_from(sheet, out, work, t, next_line(sheet, 0))
}
