// The system of the powers of at most WIDTH points, as an array of byte arrays by value: turned, solved, and read off as weights.
ghost use Rattle.std.specs.Prelude.{◌≡◌, ◌≢◌, ℕ, ◌<◌, ◌≤◌, get_or};
ghost use Rattle.std.specs.Int.Bits.{bit_xor};
ghost use Rattle.gf256.specs.Gf.{times, power, inverse};
ghost use Rattle.erasure.specs.System.{width, system_row, entry, RowTurned, SystemTurned, sum_to, weight_at, AllDifferent, Solves};

// The most points: rows and columns of the system.
pub(crate) const WIDTH: usize = 5;

// A row has room for the bytes of one vector register, so that a row is worked on at once.
pub(crate) const SYSTEM_ROW: usize = 16;

// The powers of x from 0, as many as k.
fn powers_row(x: u8, k: usize) -> [u8; SYSTEM_ROW]
    requires { k ≤ width }
    ensures { (c : ℕ) → c < k → get_or result c 0 ≡ power x c }
{
    let mut out = [0u8; SYSTEM_ROW];
    out[0] = 1;
    for c in 1..k {
        out[c] = gf256::mul(out[c - 1], x);
    }
    out
}

// The sum so far, and w times a row.
fn add_row(sum: [u8; SYSTEM_ROW], row: [u8; SYSTEM_ROW], w: u8) -> [u8; SYSTEM_ROW]
    ensures { (c : ℕ) → c < system_row → get_or result c 0 ≡ bit_xor (get_or sum c 0) (times w (get_or row c 0)) }
{
    let mut out = [0u8; SYSTEM_ROW];
    for c in 0..SYSTEM_ROW {
        out[c] = sum[c] ^ gf256::mul(row[c], w);
    }
    out
}

// One row of the turned system.
fn turn_row(row: [u8; SYSTEM_ROW], pivot: [u8; SYSTEM_ROW], d: u8, p: usize) -> [u8; SYSTEM_ROW]
    requires { p < width }
    ensures { RowTurned row pivot d p result }
{
    let w = gf256::mul(row[p], d);
    let mut out = add_row(row, pivot, w);
    out[p] = w;
    out
}

// The p-th row of the unit system.
fn unit_row(p: usize) -> [u8; SYSTEM_ROW]
    requires { p < width }
    ensures { (get_or result p 0 ≡ 1) × ((c : ℕ) → c < width → c ≢ p → get_or result c 0 ≡ 0) }
{
    let mut out = [0u8; SYSTEM_ROW];
    out[p] = 1;
    out
}

// The system of the first k points: row r has the powers of point r.
fn begin(xs: [u8; WIDTH], k: usize) -> [[u8; SYSTEM_ROW]; WIDTH]
    requires { k ≤ width }
    ensures { (i c : ℕ) → i < k → c < k → entry result i c ≡ power (get_or xs i 0) c }
{
    let mut a = [[0u8; SYSTEM_ROW]; WIDTH];
    for r in 0..k {
        a[r] = powers_row(xs[r], k);
    }
    a
}

// The system of k rows, turned at p: the p-th unknown and the p-th value change places.
fn turn(a: [[u8; SYSTEM_ROW]; WIDTH], p: usize, k: usize) -> [[u8; SYSTEM_ROW]; WIDTH]
    requires { (p < k) × (k ≤ width) }
    ensures { SystemTurned k a p (inverse (entry a p p)) result }
{
    let pivot = a[p];
    let d = gf256::inverse(pivot[p]);
    let mut out = a;
    out[p] = unit_row(p);
    for r in 0..k {
        out[r] = turn_row(out[r], pivot, d, p);
    }
    out
}

// The system of the first k points, solved.
pub(crate) fn solve(xs: [u8; WIDTH], k: usize) -> [[u8; SYSTEM_ROW]; WIDTH]
    requires { (k ≤ width) × AllDifferent k xs }
    ensures { Solves k xs result }
{
    let mut a = begin(xs, k);
    for p in 0..k {
        // in two steps: no proof is made of a call whose result is laid in an array that stands
        let b = turn(a, p, k);
        a = b;
    }
    a
}

// The sum of the first k rows, each times its power. The power of row 0 is 1, so that the sum begins with the row itself.
fn sum_rows(a: [[u8; SYSTEM_ROW]; WIDTH], powers: [u8; SYSTEM_ROW], k: usize) -> [u8; SYSTEM_ROW]
    requires { (1 ≤ k) × (k ≤ width) × (get_or powers 0 0 ≡ 1) }
    ensures { (j : ℕ) → j < system_row → get_or result j 0 ≡ sum_to k (λ c. times (get_or powers c 0) (entry a c j)) }
{
    let mut sum = a[0];
    for c in 1..k {
        // in two steps: no proof is made of a call whose result is laid in an array that stands
        let more = add_row(sum, a[c], powers[c]);
        sum = more;
    }
    sum
}

// The weights of the k values at z.
pub(crate) fn weights(a: [[u8; SYSTEM_ROW]; WIDTH], k: usize, z: u8) -> [u8; WIDTH]
    requires { (1 ≤ k) × (k ≤ width) }
    ensures { (j : ℕ) → j < width → get_or result j 0 ≡ weight_at k a z j }
{
    let sum = sum_rows(a, powers_row(z, k), k);
    let mut out = [0u8; WIDTH];
    out.copy_from_slice(&sum[..WIDTH]);
    out
}
