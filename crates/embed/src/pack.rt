// What the exported functions share: the packing of an answer, and the size of what is lent.
// `as` stands where a number has no `From`; the proof says that it fits.
ghost use Rattle.std.specs.Prelude.{◌≡◌, ◌<◌, ◌^◌, cond, eqb, ltb, Ok, Err, length};
ghost use Rattle.cluster.specs.declared.Refusal.TheVariants.{WrongSize};
ghost use Rattle.format.specs.Reading.{over};
ghost use Rattle.embed.specs.Packing.{packed_told, only_count, given_def};

use cluster::Refusal;

// What an accepted call tells.
#[derive(Clone, Copy)]
pub(crate) struct Told {
    pub(crate) result: u8,
    pub(crate) number: u32,
    pub(crate) count: u16,
}

// A count, and nothing else.
pub(crate) fn counted(count: u16) -> Told
    ensures { result ≡ only_count count }
{
    Told {
        result: 0,
        number: 0,
        count,
    }
}

// What a call told, in one number.
#[tactic(auto, unfolding(crate::specs::Packing::packed))]
pub(crate) fn pack(told: Result<Told, Refusal>) -> u64
    ensures { result ≡ packed_told told }
{
    match told {
        Ok(told) => {
            (u64::from(told.result) << 48) + (u64::from(told.number) << 16) + u64::from(told.count)
        }
        Err(why) => u64::from(why.number()) << 56,
    }
}

// What is lent must have its size.
pub(crate) fn need(fits: bool) -> Result<(), Refusal>
    ensures { result ≡ cond fits (Ok tt) (Err WrongSize) }
{
    if fits {
        Ok(())
    } else {
        Err(Refusal::WrongSize)
    }
}

// A slice of N elements as an array.
pub(crate) fn array<T: Copy, const N: usize>(src: &[T]) -> Result<[T; N], Refusal>
    ensures { result ≡ cond (eqb (length src.now) N) (Ok src.now) (Err WrongSize) }
{
    <[T; N]>::try_from(src).or(Err(Refusal::WrongSize))
}

// Bytes at the front of an output, which must have room for them.
#[tactic(auto, unfolding(crate::specs::Packing::given_def, format::specs::Reading::over))]
pub(crate) fn give(out: &mut [u8], bytes: &[u8]) -> Result<Told, Refusal>
    requires { length bytes.now < 2 ^ 16 }
    ensures value { result ≡ given_def bytes.now (length out.old) }
    ensures out_after { out.new ≡ cond (ltb (length out.old) (length bytes.now)) out.old (over bytes.now out.old) }
{
    need(bytes.len() <= out.len())?;
    out[..bytes.len()].copy_from_slice(bytes);
    Ok(counted(bytes.len() as u16))
}
