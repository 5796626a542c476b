// The numbers of a sheet's line.
ghost use Rattle.std.specs.Prelude.{◌≡◌};
ghost use Rattle.columns.specs.Lines.{line_at};
ghost use Rattle.columns.specs.Reads.{told};
ghost use Rattle.drill.specs.Sheet.{read_line_def};

// The five numbers of a line. Document 01 says box for server.
#[derive(Clone, Copy)]
pub struct Line {
    pub verb: u32,
    pub client: u32,
    pub server: u32,
    pub length: u32,
    pub fill: u32,
}

const FIELDS: usize = 5;

// The line at a place, whatever its verb.
pub(crate) fn line_at(sheet: &[u8], at: usize) -> Option<Line>
    ensures { told result ≡ read_line_def (line_at sheet.now at) }
{
    let [verb, client, server, length, fill]: [u32; FIELDS] = columns::reading::line_numbers(
        sheet, at,
    )?;
    Some(Line {
        verb,
        client,
        server,
        length,
        fill,
    })
}
