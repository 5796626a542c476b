// FIPS 180-4, 4.1.2 and 6.2.2: the functions on words, and a round.
ghost use Rattle.std.specs.Prelude.{◌≡◌};
ghost use Rattle.sha256.specs.Sha256.{choose, majority, sum0, sum1, sigma0, sigma1};
ghost use Rattle.sha256.specs.Sha256.{round_of_def, add_work};

// FIPS 180-4, 4.2.2: the round constants.
pub(crate) const K: [u32; 64] = [
    0x428a_2f98,
    0x7137_4491,
    0xb5c0_fbcf,
    0xe9b5_dba5,
    0x3956_c25b,
    0x59f1_11f1,
    0x923f_82a4,
    0xab1c_5ed5,
    0xd807_aa98,
    0x1283_5b01,
    0x2431_85be,
    0x550c_7dc3,
    0x72be_5d74,
    0x80de_b1fe,
    0x9bdc_06a7,
    0xc19b_f174,
    0xe49b_69c1,
    0xefbe_4786,
    0x0fc1_9dc6,
    0x240c_a1cc,
    0x2de9_2c6f,
    0x4a74_84aa,
    0x5cb0_a9dc,
    0x76f9_88da,
    0x983e_5152,
    0xa831_c66d,
    0xb003_27c8,
    0xbf59_7fc7,
    0xc6e0_0bf3,
    0xd5a7_9147,
    0x06ca_6351,
    0x1429_2967,
    0x27b7_0a85,
    0x2e1b_2138,
    0x4d2c_6dfc,
    0x5338_0d13,
    0x650a_7354,
    0x766a_0abb,
    0x81c2_c92e,
    0x9272_2c85,
    0xa2bf_e8a1,
    0xa81a_664b,
    0xc24b_8b70,
    0xc76c_51a3,
    0xd192_e819,
    0xd699_0624,
    0xf40e_3585,
    0x106a_a070,
    0x19a4_c116,
    0x1e37_6c08,
    0x2748_774c,
    0x34b0_bcb5,
    0x391c_0cb3,
    0x4ed8_aa4a,
    0x5b9c_ca4f,
    0x682e_6ff3,
    0x748f_82ee,
    0x78a5_636f,
    0x84c8_7814,
    0x8cc7_0208,
    0x90be_fffa,
    0xa450_6ceb,
    0xbef9_a3f7,
    0xc671_78f2,
];

// The eight working variables.
#[derive(Clone, Copy)]
pub struct Work {
    pub a: u32,
    pub b: u32,
    pub c: u32,
    pub d: u32,
    pub e: u32,
    pub f: u32,
    pub g: u32,
    pub h: u32,
}

// Choice in three operations.
fn ch(x: u32, y: u32, z: u32) -> u32
    ensures { result ≡ choose x y z }
{
    z ^ (x & (y ^ z))
}

// Majority in three operations; y ^ z was x ^ y in the round before.
fn maj(x: u32, y: u32, z: u32) -> u32
    ensures { result ≡ majority x y z }
{
    y ^ ((x ^ y) & (y ^ z))
}

#[tactic(auto, unfolding(crate::specs::Sha256::sum0, crate::specs::Sha256::rotr))]
fn big0(x: u32) -> u32
    ensures { result ≡ sum0 x }
{
    x.rotate_right(2) ^ x.rotate_right(13) ^ x.rotate_right(22)
}

#[tactic(auto, unfolding(crate::specs::Sha256::sum1, crate::specs::Sha256::rotr))]
fn big1(x: u32) -> u32
    ensures { result ≡ sum1 x }
{
    x.rotate_right(6) ^ x.rotate_right(11) ^ x.rotate_right(25)
}

#[tactic(auto, unfolding(crate::specs::Sha256::sigma0, crate::specs::Sha256::rotr))]
pub(crate) fn small0(x: u32) -> u32
    ensures { result ≡ sigma0 x }
{
    x.rotate_right(7) ^ x.rotate_right(18) ^ (x >> 3)
}

#[tactic(auto, unfolding(crate::specs::Sha256::sigma1, crate::specs::Sha256::rotr))]
pub(crate) fn small1(x: u32) -> u32
    ensures { result ≡ sigma1 x }
{
    x.rotate_right(17) ^ x.rotate_right(19) ^ (x >> 10)
}

// A round, with its constant and its word of the schedule.
pub(crate) fn round(v: Work, k: u32, w: u32) -> Work
    ensures { result ≡ round_of_def v k w }
{
    let t1 = v
        .h
        .wrapping_add(big1(v.e))
        .wrapping_add(ch(v.e, v.f, v.g))
        .wrapping_add(k)
        .wrapping_add(w);
    let t2 = big0(v.a).wrapping_add(maj(v.a, v.b, v.c));
    Work {
        a: t1.wrapping_add(t2),
        b: v.a,
        c: v.b,
        d: v.c,
        e: v.d.wrapping_add(t1),
        f: v.e,
        g: v.f,
        h: v.g,
    }
}

// The next hash value: the working variables, added to the last one.
pub(crate) fn added(h: [u32; 8], v: Work) -> [u32; 8]
    ensures { result ≡ add_work h v }
{
    [
        v.a.wrapping_add(h[0]),
        v.b.wrapping_add(h[1]),
        v.c.wrapping_add(h[2]),
        v.d.wrapping_add(h[3]),
        v.e.wrapping_add(h[4]),
        v.f.wrapping_add(h[5]),
        v.g.wrapping_add(h[6]),
        v.h.wrapping_add(h[7]),
    ]
}
