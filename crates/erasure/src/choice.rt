// Which fragments restoring uses: those of the first k different servers given.
// `as` stands where a number has no `From`; the proof says that it fits.
ghost use Rattle.std.specs.Prelude.{◌≡◌, ◌++◌, ℕ, ◌-◌, ◌≤◌, ◌<◌, ltb, length, take, get_or, replicate};
ghost use Rattle.cluster.specs.Ranges.{most_servers};
ghost use Rattle.erasure.specs.System.{width};
ghost use Rattle.erasure.specs.Choice.{among, more, first_different};
ghost use Rattle.erasure.specs.Chosen.{Holds};

use crate::system::WIDTH;

// The servers chosen so far, and where each stands in the list given: two arrays and how much of each is filled, since there is no heap.
#[derive(Clone, Copy)]
pub(crate) struct Chosen {
    pub(crate) servers: [u8; WIDTH],
    pub(crate) at: [usize; WIDTH],
    pub(crate) count: usize,
}

// One server more, unless k are chosen or this one is.
fn add_server(mut c: Chosen, k: usize, s: u8, i: usize) -> Chosen
    requires { (c.count ≤ k) × (k ≤ width) }
    ensures room { result.count ≤ k }
    ensures places { take result.count result.at ≡ more (ltb c.count k) (among s (take c.count c.servers)) (take c.count c.at) i }
    ensures servers { take result.count result.servers ≡ more (ltb c.count k) (among s (take c.count c.servers)) (take c.count c.servers) s }
{
    if c.count < k && !c.servers[..c.count].contains(&s) {
        c.servers[c.count] = s;
        c.at[c.count] = i;
        c.count += 1;
    }
    c
}

// The first k different servers, and where each stands.
pub(crate) fn select(servers: &[usize], k: usize) -> Chosen
    requires { (k ≤ width) × ((i : ℕ) → i < length servers.now → get_or servers.now i 0 ≤ most_servers) }
    ensures { Holds k servers.now (first_different k servers.now) result }
{
    let mut c = Chosen {
        servers: [0; WIDTH],
        at: [0; WIDTH],
        count: 0,
    };
    for (i, s) in servers.iter().enumerate() {
        c = add_server(c, k, *s as u8, i);
    }
    c
}

// The servers chosen, padded with 0.
pub(crate) fn used(c: Chosen) -> [u8; WIDTH]
    requires { c.count ≤ width }
    ensures { result ≡ take c.count c.servers ++ replicate (width - c.count) 0 }
{
    let mut out = [0u8; WIDTH];
    out[..c.count].copy_from_slice(&c.servers[..c.count]);
    out
}
