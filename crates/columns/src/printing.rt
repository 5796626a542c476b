// A row of numbers, printed to an output.
// `as` stands where a number has no `From`; the proof says that it fits.
ghost use Rattle.std.specs.Prelude.{◌≡◌, ◌++◌, ◌+◌, ◌*◌, ◌≤◌, length, take, drop};
ghost use Rattle.columns.specs.Columns.{column_size, justified, columns};
ghost use Rattle.columns.specs.Reads.{row_at};

use crate::lines::NEWLINE;
use crate::reading::COLUMN;

// A number right-justified in 8 columns, its last digit first.
fn column_of(v: u32) -> [u8; COLUMN]
    ensures { result ≡ justified column_size v }
{
    let mut column = [b' '; COLUMN];
    let mut rest = v;
    for i in (0..COLUMN).rev() {
        column[i] = b'0' + (rest % 10) as u8;
        rest /= 10;
        if rest == 0 {
            break;
        }
    }
    column
}

fn put_columns(out: &mut [u8], at: usize, values: &[u32])
    requires { at + column_size * length values.now ≤ length out.old }
    ensures { out.new ≡ take at out.old ++ columns values.now
        ++ drop (at + column_size * length values.now) out.old }
{
    for (j, v) in values.iter().enumerate() {
        let start = at + COLUMN * j;
        out[start..start + COLUMN].copy_from_slice(&column_of(*v));
    }
}

// The columns and 0Ah, or nothing where they have no room. Answers the place past what was printed.
pub fn put_row(out: &mut [u8], at: usize, values: &[u32]) -> usize
    ensures { record { next = result; output = out.new } ≡ row_at out.old at values.now }
{
    if out.len() <= at || (out.len() - at - 1) / COLUMN < values.len() {
        return at;
    }
    put_columns(out, at, values);
    let end = at + COLUMN * values.len();
    out[end] = NEWLINE;
    end + 1
}
