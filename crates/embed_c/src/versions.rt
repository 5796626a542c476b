// The version of the library.
ghost use Rattle.std.specs.Prelude.{◌≡◌};
ghost use Rattle.embed.specs.Versions.{version};

#[unsafe(no_mangle)]
pub extern "C" fn cendrulas_version() -> u32
    ensures { result ≡ version }
{
    embed::versions::cendrulas_version()
}
