// The lines of a text: where each ends, where the next one begins, and how many there are.
ghost use Rattle.std.specs.Prelude.{◌≡◌, ◌+◌, length};
ghost use Rattle.columns.specs.Lines.{lines, line_end_def, next_at};

pub(crate) const NEWLINE: u8 = b'\n';

// The place of the 0Ah that ends the line, or the end of the text.
pub(crate) fn line_end(text: &[u8], at: usize) -> usize
    ensures { result ≡ line_end_def text.now at }
{
    let rest = &text[at.min(text.len())..];
    at + rest
        .iter()
        .position(|b| *b == NEWLINE)
        .unwrap_or(rest.len())
}

// The place of the line after the one at a place.
pub fn next_line(text: &[u8], at: usize) -> usize
    ensures { result ≡ next_at text.now at }
{
    let end = line_end(text, at);
    if end < text.len() {
        end + 1
    } else {
        text.len()
    }
}

// A walk from line to line: the library has no law of how many parts `split_inclusive` gives.
pub fn count_lines(text: &[u8]) -> usize
    ensures { result ≡ length (lines text.now) }
{
    let mut n = 0;
    let mut at = 0;
    while at < text.len() {
        at = next_line(text, at);
        n += 1;
    }
    n
}
