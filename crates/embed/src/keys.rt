// The servers' keys, from one run of bytes.
ghost use Rattle.std.specs.Prelude.{◌≡◌, cond, eqb, Ok, Err, length};
ghost use Rattle.cluster.specs.declared.Refusal.TheVariants.{WrongSize};
ghost use Rattle.embed.specs.Clients.{keys_size, keys_in};

use super::pack::{array, need};
use cluster::Refusal;

// Each key by value.
pub(crate) fn keys_of(flat: &[u8]) -> Result<[[u8; cluster::KEY]; cluster::MOST_SERVERS], Refusal>
    ensures { result ≡ cond (eqb (length flat.now) keys_size) (Ok (keys_in flat.now)) (Err WrongSize) }
{
    let (keys, rest) = flat.as_chunks();
    need(rest.is_empty())?;
    array(keys)
}
