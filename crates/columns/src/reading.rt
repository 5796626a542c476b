// The numbers in the columns of a line.
ghost use Rattle.std.specs.Prelude.{◌≡◌, ◌*◌, ◌≤◌, length, drop};
ghost use Rattle.columns.specs.Lines.{line_at};
ghost use Rattle.columns.specs.Columns.{column_size, column, number, digits, numbers_in, read_columns_def, read_text};
ghost use Rattle.columns.specs.Reads.{told, is_read, Fills, read_into};

use crate::lines::line_end;

// Characters of a column.
pub(crate) const COLUMN: usize = 8;

// The value of digits; eight at most, so that it fits.
fn digits_value(s: &[u8]) -> Option<u32>
    requires { length s.now ≤ column_size }
    ensures { told result ≡ digits 0 s.now }
{
    let mut v = 0;
    for b in s {
        match b {
            b'0'..=b'9' => v = 10 * v + u32::from(b - b'0'),
            _ => return None,
        }
    }
    Some(v)
}

// At least one digit, and no leading zero.
fn number_value(s: &[u8]) -> Option<u32>
    requires { length s.now ≤ column_size }
    ensures { told result ≡ number s.now }
{
    if s.is_empty() || (s.len() > 1 && s[0] == b'0') {
        return None;
    }
    digits_value(s)
}

// How many spaces there are before the first other character.
fn spaces(s: &[u8]) -> usize
    ensures { (result ≤ length s.now) × (column s.now ≡ number (drop result s.now)) }
{
    s.iter().position(|b| *b != b' ').unwrap_or(s.len())
}

// The number in a column: spaces, then a number.
fn column_value(s: &[u8]) -> Option<u32>
    requires { length s.now ≤ column_size }
    ensures { told result ≡ column s.now }
{
    number_value(&s[spaces(s)..])
}

// Each of the first n columns holds a number.
fn all_numbers(line: &[u8], n: usize) -> bool
    requires { column_size * n ≤ length line.now }
    ensures { result ≡ is_read (numbers_in n line.now) }
{
    for j in 0..n {
        if column_value(&line[COLUMN * j..COLUMN * j + COLUMN]).is_none() {
            return false;
        }
    }
    true
}

// The numbers of columns that all hold one.
fn fill(line: &[u8], values: &mut [u32])
    requires { column_size * length values.old ≤ length line.now }
    ensures { Fills line.now values.old values.new }
{
    for (j, v) in values.iter_mut().enumerate() {
        *v = column_value(&line[COLUMN * j..COLUMN * j + COLUMN]).unwrap_or(0);
    }
}

// A number for each value, in columns and nothing after them. All columns are tested first, so that what is not read changes nothing.
fn read_columns(line: &[u8], values: &mut [u32]) -> bool
    ensures { record { read = result; values = values.new }
        ≡ read_into (read_columns_def (length values.old) line.now) values.old }
{
    if line.len() % COLUMN != 0
        || line.len() / COLUMN != values.len()
        || !all_numbers(line, values.len())
    {
        return false;
    }
    fill(line, values);
    true
}

// The numbers of the line at a place, one for each value. Where it is no line of so many columns, nothing changes.
pub fn read_line(text: &[u8], at: usize, values: &mut [u32]) -> bool
    ensures { record { read = result; values = values.new }
        ≡ read_into (read_text (length values.old) (line_at text.now at)) values.old }
{
    let end = line_end(text, at);
    if text.len() <= end {
        return false;
    }
    read_columns(&text[at..end], values)
}

// The numbers of the line at a place, if it is a line of so many columns.
pub fn line_numbers<const N: usize>(text: &[u8], at: usize) -> Option<[u32; N]>
    ensures { told result ≡ read_text N (line_at text.now at) }
{
    let mut values = [0; N];
    if !read_line(text, at, &mut values) {
        return None;
    }
    Some(values)
}
