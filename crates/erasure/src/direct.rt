// The weights of the first k points in closed form: for one value no system need be solved.
ghost use Rattle.std.specs.Prelude.{◌≡◌, ℕ, ◌<◌, ◌≤◌, get_or, length};
ghost use Rattle.erasure.specs.System.{width, factor_at, direct_at};

use crate::system::WIDTH;

// z less point m, but 1 at j.
fn factor(points: &[u8], j: usize, z: u8, m: usize) -> u8
    requires { m < length points.now }
    ensures { result ≡ factor_at points.now j z m }
{
    if m == j { 1 } else { z ^ points[m] }
}

// What the j-th value counts for at z: the product of z less each other point, over that of point j less each.
fn weight(points: &[u8], k: usize, j: usize, z: u8) -> u8
    requires { (k ≤ length points.now) × (j < k) }
    ensures { result ≡ direct_at k points.now z j }
{
    let x = points[j];
    let mut top = 1u8;
    let mut own = 1u8;
    for m in 0..k {
        top = gf256::mul(top, factor(points, j, z, m));
        own = gf256::mul(own, factor(points, j, x, m));
    }
    gf256::mul(top, gf256::inverse(own))
}

// The weights of the k values at z.
pub(crate) fn weights(points: &[u8], k: usize, z: u8) -> [u8; WIDTH]
    requires { (k ≤ width) × (k ≤ length points.now) }
    ensures { (j : ℕ) → j < k → get_or result j 0 ≡ direct_at k points.now z j }
{
    let mut out = [0u8; WIDTH];
    for j in 0..k {
        out[j] = weight(points, k, j, z);
    }
    out
}
