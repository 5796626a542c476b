// The field of FIPS 197 on bytes. Its one product goes by doubling; the tables of powers and logarithms of 03h give the inverse.
#![tactic(auto)]

ghost use Rattle.std.specs.Prelude.{◌≡◌, ◌*◌, ◌%◌};
ghost use Rattle.gf256.specs.Gf.{xtime, times, inverse as inverseOf};

pub mod logarithms;

// The double of a byte. The mask keeps loops over many bytes free of branches.
pub fn double(a: u8) -> u8
    ensures { result ≡ xtime a }
{
    (a << 1) ^ (mask(a >> 7) & 27)
}

// All bits set where the lowest bit of w is, and else none.
pub fn mask(w: u8) -> u8
    ensures { result ≡ w % 2 * 255 }
{
    (w & 1) * 255
}

// The product, from the highest bit of b down: without branches and without a look-up, since a constant table is copied whenever it is read.
pub fn mul(a: u8, b: u8) -> u8
    ensures { result ≡ times a b }
{
    let mut out = 0u8;
    for n in (0..8u32).rev() {
        out = double(out) ^ (a & mask(b >> n));
    }
    out
}

// The inverse; that of 0 is 0.
pub fn inverse(a: u8) -> u8
    ensures { result ≡ inverseOf a }
{
    if a == 0 {
        0
    } else {
        logarithms::power_of(255 - logarithms::log_of(a))
    }
}
