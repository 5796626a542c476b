// The weights of the plain runs, a row for each, one row after the other.
ghost use Rattle.std.specs.Prelude.{◌≡◌, ◌≢◌, ◌==◌, not, ◌++◌, map, ℕ, ◌+◌, ◌-◌, ◌*◌, ◌<◌, ◌≤◌, IfSome, get_or, length, take, replicate, position};
ghost use Rattle.std.specs.List.{list_all};
ghost use Rattle.cluster.specs.Config.{point_of, PointTable};
ghost use Rattle.erasure.specs.System.{width, AllDifferent};
ghost use Rattle.erasure.specs.Standing.{weight_in};
ghost use Rattle.erasure.specs.Weights.{weight_rows, rows_room};

use crate::ROWS;
use crate::choice::Chosen;
use crate::system::{SYSTEM_ROW, WIDTH};

// The weights at z: where z is one of the points given, only the value there counts; otherwise the solved system tells them.
fn row_of(a: [[u8; SYSTEM_ROW]; WIDTH], k: usize, place: Option<usize>, z: u8) -> [u8; WIDTH]
    requires { (1 ≤ k) × (k ≤ width) × IfSome place (λ p. p < k) }
    ensures { (j : ℕ) → j < k → get_or result j 0 ≡ weight_in k a place z j }
{
    match place {
        Some(p) => {
            let mut out = [0u8; WIDTH];
            out[p] = 1;
            out
        }
        None => crate::system::weights(a, k, z),
    }
}

// The rows of the plain runs, whose points are the first k of all, from the values at the first k points given. Padded with 00h.
fn made(points: &[u8], given: [u8; WIDTH], k: usize) -> [u8; ROWS]
    requires { (1 ≤ k) × (k ≤ width) × (k ≤ length points.now) × AllDifferent k given }
    ensures { result ≡ weight_rows points.now k (take k given) ++ replicate (rows_room - k * k) 0 }
{
    let places = crate::given::places_of(given, k, points);
    let a = crate::given::system_of(given, places, k);
    let mut out = [0u8; ROWS];
    for i in 0..k {
        let row = row_of(a, k, places[i], points[i]);
        out[i * k..i * k + k].copy_from_slice(&row[..k]);
    }
    out
}

// The rows for the chosen servers.
pub(crate) fn of_chosen(points: &[u8], c: Chosen) -> [u8; ROWS]
    requires { (1 ≤ c.count) × (c.count ≤ width) × (c.count ≤ length points.now) × (PointTable points.now)
        × AllDifferent c.count c.servers
        × ((j : ℕ) → j < c.count → (1 ≤ get_or c.servers j 0) × (get_or c.servers j 0 ≤ length points.now)) }
    ensures { result ≡ weight_rows points.now c.count (map (point_of points.now) (take c.count c.servers))
        ++ replicate (rows_room - c.count * c.count) 0 }
{
    made(
        points,
        crate::points::points_of(c.servers, c.count, points),
        c.count,
    )
}

// Row i.
pub(crate) fn row_at(rows: [u8; ROWS], k: usize, i: usize) -> [u8; WIDTH]
    requires { (k ≤ width) × (i < k) }
    ensures { (j : ℕ) → j < k → get_or result j 0 ≡ get_or rows (i * k + j) 0 }
{
    let mut out = [0u8; WIDTH];
    out[..k].copy_from_slice(&rows[i * k..i * k + k]);
    out
}

// The place of the first weight that is not 0.
fn first_weight(row: [u8; WIDTH], k: usize) -> Option<usize>
    requires { k ≤ width }
    ensures { result ≡ position (λ w. not (w == 0)) (take k row) }
{
    row[..k].iter().position(|w| *w != 0)
}

// Whether all weights are 0.
fn blank(row: &[u8]) -> bool
    ensures { result ≡ list_all (λ w. w == 0) row.now }
{
    row.iter().all(|w| *w == 0)
}

// Where the 1 stands of a row that copies: all its other weights are 0.
pub(crate) fn unit_of(row: [u8; WIDTH], k: usize) -> Option<usize>
    requires { k ≤ width }
    ensures { IfSome result (λ p. (p < k) × (get_or row p 0 ≡ 1) × ((j : ℕ) → j < k → j ≢ p → get_or row j 0 ≡ 0)) }
{
    let p = first_weight(row, k)?;
    if row[p] == 1 && blank(&row[p + 1..k]) {
        Some(p)
    } else {
        None
    }
}
