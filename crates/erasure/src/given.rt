// Which plain runs are among the fragments given, told by their points: only for the others a system is solved.
ghost use Rattle.std.specs.Prelude.{◌≡◌, ◌==◌, ℕ, ◌<◌, ◌≤◌, None, get_or, length, take, position};
ghost use Rattle.std.specs.List.{list_all};
ghost use Rattle.std.specs.Option.{is_some};
ghost use Rattle.erasure.specs.System.{width, AllDifferent};
ghost use Rattle.erasure.specs.Standing.{SystemAs};

use crate::system::{SYSTEM_ROW, WIDTH};

// Where point z stands among the first k points given.
fn place_of(given: [u8; WIDTH], k: usize, z: u8) -> Option<usize>
    requires { k ≤ width }
    ensures { result ≡ position (λ x. x == z) (take k given) }
{
    given[..k].iter().position(|x| *x == z)
}

// Where the point of each of the k plain runs, the first k of all points, stands among the first k given.
pub(crate) fn places_of(given: [u8; WIDTH], k: usize, points: &[u8]) -> [Option<usize>; WIDTH]
    requires { (k ≤ width) × (k ≤ length points.now) }
    ensures { (i : ℕ) → i < k → get_or result i None ≡ position (λ x. x == get_or points.now i 0) (take k given) }
{
    let mut out = [None; WIDTH];
    for i in 0..k {
        out[i] = place_of(given, k, points[i]);
    }
    out
}

// Whether each of the k plain runs is given.
fn all_given(places: [Option<usize>; WIDTH], k: usize) -> bool
    requires { k ≤ width }
    ensures { result ≡ list_all is_some (take k places) }
{
    places[..k].iter().all(|p| p.is_some())
}

// The solved system of the first k points given, which a run that is not given needs; where all are given, nothing is solved.
pub(crate) fn system_of(
    given: [u8; WIDTH],
    places: [Option<usize>; WIDTH],
    k: usize,
) -> [[u8; SYSTEM_ROW]; WIDTH]
    requires { (k ≤ width) × AllDifferent k given }
    ensures { SystemAs k given places result }
{
    if all_given(places, k) {
        return [[0u8; SYSTEM_ROW]; WIDTH];
    }
    crate::system::solve(given, k)
}
