// Sums of runs of bytes, each times a weight, a lane of places at a time.
// A sum goes through the bits of the weights, the highest first: what is there is doubled, then each run is added whose weight has the bit.
ghost use Rattle.std.specs.Prelude.{◌≡◌, ℕ, ◌+◌, ◌*◌, ◌<◌, ◌≤◌, get_or, length, []};
ghost use Rattle.std.specs.Int.Bits.{bit_xor};
ghost use Rattle.gf256.specs.Gf.{xtime, times};
ghost use Rattle.erasure.specs.Fragments.{table};
ghost use Rattle.erasure.specs.System.{width, entry, sum_to};
ghost use Rattle.erasure.specs.Lanes.{lane, bit_of, Lane, byte_at, sum_at};

use crate::system::WIDTH;

// How many places are worked on together.
const LANE: usize = 128;

// Runs of bytes that stand in a slice: where each begins, how many they are, and how long each is. A run may end past the slice's end, where
// it reads as 00h; but since runs are a content divided by their number and rounded up, no further past it than they are many.
#[derive(Clone, Copy)]
pub(crate) struct Runs {
    pub(crate) starts: [usize; WIDTH],
    pub(crate) count: usize,
    pub(crate) size: usize,
}

// Each byte doubled.
fn doubled(x: [u8; LANE]) -> [u8; LANE]
    ensures { Lane result (λ i. xtime (get_or x i 0)) }
{
    let mut out = [0u8; LANE];
    for i in 0..LANE {
        out[i] = gf256::double(x[i]);
    }
    out
}

// The sum so far, and x where bit b of w is set. The mask keeps the loop free of branches.
fn added(sum: [u8; LANE], x: [u8; LANE], w: u8, b: u32) -> [u8; LANE]
    requires { b < 8 }
    ensures { Lane result (λ i. bit_xor (get_or sum i 0) (bit_of w b * get_or x i 0)) }
{
    let m = gf256::mask(w >> b);
    let mut out = [0u8; LANE];
    for i in 0..LANE {
        out[i] = sum[i] ^ (x[i] & m);
    }
    out
}

// One bit of every weight.
fn bit_step(
    sum: [u8; LANE],
    lanes: &[[u8; LANE]; WIDTH],
    weights: [u8; WIDTH],
    b: u32,
    k: usize,
) -> [u8; LANE]
    requires { (b < 8) × (k ≤ width) }
    ensures { Lane result (λ i. bit_xor (xtime (get_or sum i 0)) (sum_to k (λ j. bit_of (get_or weights j 0) b * entry lanes.now j i))) }
{
    let mut out = doubled(sum);
    for j in 0..k {
        // in two steps: no proof is made of a call whose result is laid in an array that stands
        let more = added(out, lanes[j], weights[j], b);
        out = more;
    }
    out
}

// The sum of the first k lanes, each times its weight.
fn lane_sum(lanes: &[[u8; LANE]; WIDTH], weights: [u8; WIDTH], k: usize) -> [u8; LANE]
    requires { (k ≤ width) × ((j i : ℕ) → j < k → i < lane → entry lanes.now j i < 256) }
    ensures { Lane result (λ i. sum_to k (λ j. times (entry lanes.now j i) (get_or weights j 0))) }
{
    let mut out = [0u8; LANE];
    for n in 0..8 {
        // in two steps: no proof is made of a call whose result is laid in an array that stands
        let more = bit_step(out, lanes, weights, 7 - n, k);
        out = more;
    }
    out
}

// The lane of src from at on, with 00h past the end.
fn lane_at(src: &[u8], at: usize) -> [u8; LANE]
    ensures { Lane result (λ i. get_or src.now (at + i) 0) }
{
    let left = &src[at.min(src.len())..];
    if let Some(whole) = left.first_chunk() {
        return *whole;
    }
    let mut out = [0u8; LANE];
    out[..left.len()].copy_from_slice(left);
    out
}

// The lanes of the first k runs from place q on, written over the first k of out.
fn gather(out: &mut [[u8; LANE]; WIDTH], src: &[u8], starts: [usize; WIDTH], q: usize, k: usize)
    requires { (k ≤ width) × ((j : ℕ) → j < k → get_or starts j 0 + q ≤ length src.now + width) × (length out.old ≡ width) }
    ensures { ((j : ℕ) → j < k → Lane (get_or out.new j []) (λ i. byte_at src.now starts (q + i) j))
        × (length out.new ≡ width) }
{
    for j in 0..k {
        out[j] = lane_at(src, starts[j] + q);
    }
}

// The sum of the runs, each times its weight, at each place of out. There is always a run; the test says so to the compiler, whose code for the
// loop is slower where it cannot know. The lanes are counted: of `chunks_mut` a proof knows no elements.
pub(crate) fn combine(weights: [u8; WIDTH], runs: Runs, src: &[u8], out: &mut [u8])
    requires { (runs.count ≤ width) × ((j : ℕ) → j < runs.count → get_or runs.starts j 0 + length out.old ≤ length src.now + width)
        × (1 ≤ runs.count) }
    ensures { out.new ≡ table (length out.old) (sum_at runs.count (λ j. get_or weights j 0) src.now runs.starts) }
{
    let starts = runs.starts;
    let k = runs.count;
    if k == 0 {
        return;
    }
    let mut lanes = [[0u8; LANE]; WIDTH];
    for i in 0..out.len().div_ceil(LANE) {
        let q = i * LANE;
        let n = LANE.min(out.len() - q);
        gather(&mut lanes, src, starts, q, k);
        let sum = lane_sum(&lanes, weights, k);
        out[q..q + n].copy_from_slice(&sum[..n]);
    }
}
