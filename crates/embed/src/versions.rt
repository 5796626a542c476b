// The version of the library.
ghost use Rattle.std.specs.Prelude.{◌≡◌};
ghost use Rattle.embed.specs.Versions.{version};

// Major, minor, patch: 2.0.0.
const MAJOR: u8 = 2;

const MINOR: u8 = 0;

const PATCH: u8 = 0;

pub fn cendrulas_version() -> u32
    ensures { result ≡ version }
{
    u32::from_be_bytes([0, MAJOR, MINOR, PATCH])
}
