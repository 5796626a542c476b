// FIPS 180-4, 6.2.2: the rounds of a block. Only the next 16 words of the schedule are kept, word i at place i % 16, and a round's word
// makes room for the word 16 rounds on. Each round is written out (a loop over them would leave the places to be computed), so that places
// and constants are known when the code is compiled, and the table is not copied.
ghost use Rattle.std.specs.Prelude.{◌≡◌, ◌+◌, ◌≤◌, ◌<◌, length};
ghost use Rattle.sha256.specs.Sha256.{k_table, grow, start, compress_of};
ghost use Rattle.sha256.specs.Steps.{later_word, Advances};

use super::rounds::{K, Work, added, round, small0, small1};

// Word n + 16 of the schedule, from the words n to n + 15.
fn later(w: &[u32; 16], n: usize) -> u32
    requires { n < 64 }
    ensures { result ≡ later_word w.now n }
{
    small1(w[(n + 14) % 16])
        .wrapping_add(w[(n + 9) % 16])
        .wrapping_add(small0(w[(n + 1) % 16]))
        .wrapping_add(w[n % 16])
}

// Round n, and word n + 16 at the place of its word.
fn turn(v: Work, k: &[u32; 64], w: &mut [u32; 16], n: usize) -> Work
    requires { (n < 48) × (k.now ≡ k_table) × (length w.old ≡ 16) }
    ensures { (length w.new ≡ 16) × Advances n (n + 1) v w.old result w.new }
{
    let x = w[n % 16];
    let y = later(w, n);
    w[n % 16] = y;
    round(v, k[n], x)
}

// Round n of the last 16: no further word is needed.
fn last(v: Work, k: &[u32; 64], w: &[u32; 16], n: usize) -> Work
    requires { (48 ≤ n) × (n < 64) × (k.now ≡ k_table) }
    ensures { Advances n (n + 1) v w.now result w.now }
{
    round(v, k[n], w[n % 16])
}

// Rounds n to n + 3.
#[inline(always)]
fn four(v: Work, k: &[u32; 64], w: &mut [u32; 16], n: usize) -> Work
    requires { (n + 3 < 48) × (k.now ≡ k_table) × (length w.old ≡ 16) }
    ensures { (length w.new ≡ 16) × Advances n (n + 4) v w.old result w.new }
{
    let v = turn(v, k, w, n);
    let v = turn(v, k, w, n + 1);
    let v = turn(v, k, w, n + 2);
    turn(v, k, w, n + 3)
}

// Rounds n to n + 3 of the last 16.
#[inline(always)]
fn last_four(v: Work, k: &[u32; 64], w: &[u32; 16], n: usize) -> Work
    requires { (48 ≤ n) × (n + 3 < 64) × (k.now ≡ k_table) }
    ensures { Advances n (n + 4) v w.now result w.now }
{
    let v = last(v, k, w, n);
    let v = last(v, k, w, n + 1);
    let v = last(v, k, w, n + 2);
    last(v, k, w, n + 3)
}

// Rounds N to N + 15. Each N's function is called once, so that the compiler puts it into its caller.
fn sixteen<const N: usize>(v: Work, k: &[u32; 64], w: &mut [u32; 16]) -> Work
    requires { (N + 15 < 48) × (k.now ≡ k_table) × (length w.old ≡ 16) }
    ensures { (length w.new ≡ 16) × Advances N (N + 16) v w.old result w.new }
{
    let v = four(v, k, w, N);
    let v = four(v, k, w, N + 4);
    let v = four(v, k, w, N + 8);
    four(v, k, w, N + 12)
}

// Rounds 48 to 63.
fn last_sixteen(v: Work, k: &[u32; 64], w: &[u32; 16]) -> Work
    requires { k.now ≡ k_table }
    ensures { Advances 48 64 v w.now result w.now }
{
    let v = last_four(v, k, w, 48);
    let v = last_four(v, k, w, 52);
    let v = last_four(v, k, w, 56);
    last_four(v, k, w, 60)
}

// The working variables before the first round.
#[tactic(auto, unfolding(crate::specs::Sha256::start))]
fn begin(h: [u32; 8]) -> Work
    ensures { result ≡ start h }
{
    let [a, b, c, d, e, f, g, h] = h;
    Work {
        a,
        b,
        c,
        d,
        e,
        f,
        g,
        h,
    }
}

// Makes the hash value before one block, of these words, the one after it.
#[tactic(auto, unfolding(crate::specs::Sha256::k_table))]
pub(crate) fn compress(h: &mut [u32; 8], b: [u32; 16])
    ensures { h.new ≡ compress_of h.old (grow 48 b) }
{
    let mut w = b;
    let mut v = begin(*h);
    v = sixteen::<0>(v, &K, &mut w);
    v = sixteen::<16>(v, &K, &mut w);
    v = sixteen::<32>(v, &K, &mut w);
    v = last_sixteen(v, &K, &w);
    *h = added(*h, v);
}
