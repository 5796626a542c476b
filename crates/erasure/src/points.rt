// Points of servers. A table has the point of server i at the place i - 1; functions take it as they are given it, and only the two public
// operations choose one.
// `as` stands where a number has no `From`; the proof says that it fits.
ghost use Rattle.std.specs.Prelude.{◌≡◌, ℕ, ◌<◌, ◌≤◌, get_or, length};
ghost use Rattle.cluster.specs.Config.{up_to, point_of};
ghost use Rattle.cluster.specs.Ranges.{most_servers};
ghost use Rattle.erasure.specs.System.{width};

use crate::system::WIDTH;

const MOST: usize = cluster::MOST_SERVERS;

// Document 01's table for the most servers, in which server i has the point i. Its first S entries are the table of a shelf.
pub(crate) fn numbered() -> [u8; MOST]
    ensures { result ≡ up_to most_servers }
{
    std::array::from_fn(|j| j as u8 + 1)
}

// The points of the first k servers.
pub(crate) fn points_of(servers: [u8; WIDTH], k: usize, points: &[u8]) -> [u8; WIDTH]
    requires { (k ≤ width) × ((j : ℕ) → j < k → (1 ≤ get_or servers j 0) × (get_or servers j 0 ≤ length points.now)) }
    ensures { (j : ℕ) → j < k → get_or result j 0 ≡ point_of points.now (get_or servers j 0) }
{
    let mut out = [0u8; WIDTH];
    for j in 0..k {
        out[j] = points[usize::from(servers[j]) - 1];
    }
    out
}
