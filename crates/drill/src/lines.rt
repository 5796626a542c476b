// Which lines of a sheet have the form of the first one, and which that of a step.
// `as` stands where a number has no `From`; the proof says that it fits.
ghost use Rattle.std.specs.Prelude.{◌≡◌};
ghost use Rattle.columns.specs.Lines.{line_at};
ghost use Rattle.columns.specs.Reads.{told};
ghost use Rattle.drill.specs.Sheet.{is_first_def, is_step_def, is_write_def, is_alone_def, is_blanking_def, no_content_def, first_line_def, step_line_def};

use crate::sheet::{Line, line_at};
use crate::verbs::Verb;

// Neither length nor fill.
fn no_content(l: Line) -> bool
    ensures { result ≡ no_content_def l }
{
    l.length == 0 && l.fill == 0
}

// A write names no server, and its fill is a byte.
fn is_write(l: Line) -> bool
    ensures { result ≡ is_write_def l }
{
    l.server == 0 && l.fill <= 255
}

// A read or a giving up names a client only.
fn is_alone(l: Line) -> bool
    ensures { result ≡ is_alone_def l }
{
    l.server == 0 && no_content(l)
}

// A blanking names a server only.
fn is_blanking(l: Line) -> bool
    ensures { result ≡ is_blanking_def l }
{
    l.client == 0 && no_content(l)
}

fn is_first(l: Line) -> bool
    ensures { result ≡ is_first_def l }
{
    Verb::of(l.verb) == Some(Verb::Shelf) && is_alone(l)
}

fn is_step(l: Line) -> bool
    ensures { result ≡ is_step_def l }
{
    let Some(verb) = Verb::of(l.verb) else {
        return false;
    };
    match verb {
        Verb::Write => is_write(l),
        Verb::Read | Verb::Stop => is_alone(l),
        Verb::Visit => no_content(l),
        Verb::Unlatest => is_blanking(l),
        Verb::Shelf => false,
    }
}

pub(crate) fn first_line(sheet: &[u8]) -> Option<Line>
    ensures { told result ≡ first_line_def (line_at sheet.now 0) }
{
    let l = line_at(sheet, 0)?;
    is_first(l).then_some(l)
}

// Line n of the sheet, after the first.
pub(crate) fn step_line(sheet: &[u8], at: usize, n: u32) -> Option<Line>
    ensures { told result ≡ step_line_def n (line_at sheet.now at) }
{
    if cluster::TOP_NUMBER <= n as usize {
        return None;
    }
    let l = line_at(sheet, at)?;
    is_step(l).then_some(l)
}
