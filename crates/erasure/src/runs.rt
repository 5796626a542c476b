// The value at a point from the runs at other points: a fragment from the plain runs of a content, and the plain runs from fragments.
ghost use Rattle.std.specs.Prelude.{◌≡◌, ◌++◌, map, ℕ, ◌+◌, ◌-◌, ◌*◌, ◌<◌, ◌≤◌, get_or, length, drop, replicate};
ghost use Rattle.cluster.specs.Config.{point_of, PointTable};
ghost use Rattle.erasure.specs.Fragments.{table, fragment_size_def, fragment};
ghost use Rattle.erasure.specs.Steps.{fragment_room};
ghost use Rattle.erasure.specs.System.{width, AllDifferent};
ghost use Rattle.erasure.specs.Lanes.{sum_at, value_from, plain_of, weighed_of, rebuilt_of};
ghost use Rattle.erasure.specs.Weights.{weighed_bytes};

use crate::choice::Chosen;
use crate::lanes::Runs;
use crate::system::WIDTH;
use crate::{ROOM, ROWS};

// Where the plain runs stand: 0, 1, ..
fn plain_places() -> [usize; WIDTH]
    ensures { (j : ℕ) → j < width → get_or result j 0 ≡ j }
{
    std::array::from_fn(|j| j)
}

// The runs of f bytes at the first k places.
fn runs_at(at: [usize; WIDTH], f: usize, k: usize) -> Runs
    requires { (k ≤ width) × ((j : ℕ) → j < k → get_or at j 0 * f < 9223372036854775808) }
    ensures { (result.count ≡ k) × (result.size ≡ f) × ((j : ℕ) → j < k → get_or result.starts j 0 ≡ get_or at j 0 * f) }
{
    let mut out = [0usize; WIDTH];
    for j in 0..k {
        out[j] = at[j] * f;
    }
    Runs {
        starts: out,
        count: k,
        size: f,
    }
}

// The plain runs of a content, k of f bytes.
fn plain_runs(f: usize, k: usize) -> Runs
    requires { (k ≤ width) × (f ≤ fragment_room) }
    ensures { (result.count ≡ k) × (result.size ≡ f) × ((j : ℕ) → j < k → get_or result.starts j 0 ≡ j * f) }
{
    runs_at(plain_places(), f, k)
}

// All 00h: by a function, so that no goal above has 512 zeros in it.
fn blank() -> [u8; ROOM]
    ensures { result ≡ replicate fragment_room 0 }
{
    [0u8; ROOM]
}

// The value at z, from runs of which each stands at its point: the first run at the first point, and so on. Padded with 00h.
fn value(points: &[u8], runs: Runs, src: &[u8], z: u8) -> [u8; ROOM]
    requires { (runs.count ≤ width) × (runs.count ≤ length points.now) × AllDifferent runs.count points.now × (runs.size ≤ fragment_room)
        × ((j : ℕ) → j < runs.count → get_or runs.starts j 0 + runs.size ≤ length src.now + width) × (1 ≤ runs.count) }
    ensures { result ≡ value_from runs.count runs.size points.now src.now runs.starts z
        ++ replicate (fragment_room - runs.size) 0 }
{
    let weights = crate::direct::weights(points, runs.count, z);
    let mut bytes = blank();
    crate::lanes::combine(weights, runs, src, &mut bytes[..runs.size]);
    bytes
}

// The plain run j of a content, padded with 00h.
fn plain(f: usize, j: usize, content: &[u8]) -> [u8; ROOM]
    requires { (f ≤ fragment_room) × (j < width) }
    ensures { result ≡ plain_of f j content.now ++ replicate (fragment_room - f) 0 }
{
    let from = content.len().min(j * f);
    let m = f.min(content.len() - from);
    let mut bytes = blank();
    bytes[..m].copy_from_slice(&content[from..from + m]);
    bytes
}

// The fragment of a server, f bytes, padded with 00h: a run of the content for each of the first k servers, and otherwise the value at the
// server's point.
pub(crate) fn make(points: &[u8], k: usize, f: usize, server: usize, content: &[u8]) -> [u8; ROOM]
    requires { (1 ≤ k) × (k ≤ width) × (k ≤ length points.now) × (PointTable points.now) × (1 ≤ server) × (server ≤ length points.now)
        × (f ≡ fragment_size_def k (length content.now)) × (f ≤ fragment_room) }
    ensures { result ≡ fragment points.now k content.now server ++ replicate (fragment_room - f) 0 }
{
    if server <= k {
        return plain(f, server - 1, content);
    }
    value(points, plain_runs(f, k), content, points[server - 1])
}

// The same bytes. One by one and not by `copy_from_slice`, which asks a program that links the archive for `memmove` where it can't see that the two
// lie apart.
fn copy(from: &[u8], to: &mut [u8])
    requires { length from.now ≡ length to.old }
    ensures { to.new ≡ from.now }
{
    for (i, b) in from.iter().enumerate() {
        to[i] = *b;
    }
}

// A run, as far as out goes: a copy where its row copies, and otherwise the sum that it weighs.
fn run(row: [u8; WIDTH], runs: Runs, fragments: &[u8], out: &mut [u8])
    requires { (runs.count ≤ width) × ((j : ℕ) → j < runs.count → get_or runs.starts j 0 + length out.old ≤ length fragments.now)
        × (1 ≤ runs.count) }
    ensures { out.new ≡ table (length out.old) (sum_at runs.count (λ j. get_or row j 0) fragments.now runs.starts) }
{
    match crate::weighing::unit_of(row, runs.count) {
        Some(j) => {
            let from = runs.starts[j];
            copy(&fragments[from..from + out.len()], out);
        }
        None => crate::lanes::combine(row, runs, fragments, out),
    }
}

// The content of n bytes, run after run, each weighed by its row.
fn write_runs(rows: [u8; ROWS], runs: Runs, fragments: &[u8], n: usize, out: &mut [u8])
    requires { (runs.count ≤ width) × (n ≤ runs.count * runs.size) × (n ≤ length out.old)
        × ((j : ℕ) → j < runs.count → get_or runs.starts j 0 + runs.size ≤ length fragments.now) × (runs.size ≤ fragment_room) }
    ensures { out.new ≡ weighed_of runs.count runs.size n rows fragments.now runs.starts
        ++ drop n out.old }
{
    let k = runs.count;
    let f = runs.size;
    for i in 0..k {
        let from = i * f;
        if n <= from {
            break; // a short content has fewer runs than k
        }
        let row = crate::weighing::row_at(rows, k, i);
        let m = f.min(n - from);
        run(row, runs, fragments, &mut out[from..from + m]);
    }
}

// The content of n bytes that the fragments of f bytes of the chosen servers give, at the start of out.
pub(crate) fn rebuild(
    points: &[u8],
    c: Chosen,
    fragments: &[u8],
    f: usize,
    n: usize,
    out: &mut [u8],
)
    requires { (1 ≤ c.count) × (c.count ≤ width) × (c.count ≤ length points.now) × (PointTable points.now)
        × AllDifferent c.count c.servers
        × ((j : ℕ) → j < c.count → (1 ≤ get_or c.servers j 0) × (get_or c.servers j 0 ≤ length points.now))
        × (n ≤ c.count * f) × (n ≤ length out.old) × ((j : ℕ) → j < c.count → get_or c.at j 0 * f + f ≤ length fragments.now)
        × (f ≤ fragment_room) }
    ensures { out.new ≡ rebuilt_of c.count f n points.now (map (point_of points.now) c.servers)
        fragments.now (map (λ p. p * f) c.at) ++ drop n out.old }
{
    let rows = crate::weighing::of_chosen(points, c);
    write_runs(rows, runs_at(c.at, f, c.count), fragments, n, out);
}

// The content of n bytes that k fragments of f bytes, one after the other, give by these rows, at the start of out.
pub(crate) fn rebuild_weighed(
    rows: [u8; ROWS],
    k: usize,
    fragments: &[u8],
    f: usize,
    n: usize,
    out: &mut [u8],
)
    requires { (k ≤ width) × (f ≡ fragment_size_def k n) × (f ≤ fragment_room) × (n ≤ k * f) × (n ≤ length out.old)
        × (length fragments.now ≡ k * f) }
    ensures { out.new ≡ weighed_bytes k n rows fragments.now ++ drop n out.old }
{
    write_runs(rows, plain_runs(f, k), fragments, n, out);
}
