// The lengths of packets' parts, as the definitions give them for a shelf's t.
// `as` stands where a number has no `From`; the proof says that it fits.
ghost use Rattle.std.specs.Prelude.{◌≡◌};
ghost use Rattle.cluster.specs.Config.{shelf};
ghost use Rattle.erasure.specs.Fragments.{fragment_size_def};
ghost use Rattle.protocol.specs.Packet.{share_size_def};
ghost use Rattle.protocol.specs.Values.{digests_size_def, tags_size_def, candidate_size_def};

// Bytes of a digest, of a nonce and of a packet's head.
pub const DIGEST: usize = cluster::KEY;

pub const NONCE: usize = cluster::KEY;

pub const HEAD: usize = 8;

// Bytes of a call's or a stamp's number, of a stamp's number and writer, and of the stamp.
pub const NUMBER: usize = 4;

pub const LABEL: usize = NUMBER + 1;

pub const STAMP: usize = LABEL + hmac::TAG;

// Bytes of a candidate's stamp and nonce: of a candidate without its tags.
pub const NAME: usize = STAMP + NONCE;

// Bytes of the record length that a share begins with; of a stamp and the byte that says whether a share follows; and of these and that length.
pub const LENGTH: usize = 2;

pub const HELD: usize = STAMP + 1;

pub const HELD_LENGTH: usize = HELD + LENGTH;

#[tactic(auto, unfolding(cluster::specs::Config::shelf))]
pub fn digests_size(t: u8) -> usize
    ensures { result ≡ digests_size_def (shelf t) }
{
    DIGEST * cluster::servers(t)
}

#[tactic(auto, unfolding(cluster::specs::Config::shelf))]
pub fn tags_size(t: u8) -> usize
    ensures { result ≡ tags_size_def (shelf t) }
{
    hmac::TAG * cluster::servers(t)
}

#[tactic(auto, unfolding(cluster::specs::Config::shelf))]
pub fn candidate_size(t: u8) -> usize
    ensures { result ≡ candidate_size_def (shelf t) }
{
    NAME + tags_size(t)
}

// Bytes of a fragment of a content of n bytes. Each t has its own divisor, which the compiler then knows.
#[tactic(auto, unfolding(cluster::specs::Config::shelf, erasure::specs::Fragments::fragment_size_def))]
pub fn fragment_size(t: u8, n: u32) -> usize
    ensures { result ≡ fragment_size_def (shelf t).threshold n }
{
    let size = n as usize;
    match t {
        1 => size.div_ceil(2),
        2 => size.div_ceil(3),
        3 => size.div_ceil(4),
        4 => size.div_ceil(5),
        _ => size.div_ceil(cluster::threshold(t)),
    }
}

// Bytes of a share of a content of n bytes.
#[tactic(auto, using(crate::proofs::Lengths::few), unfolding(cluster::specs::Config::shelf, crate::specs::Places::share_size_def))]
pub fn share_size(t: u8, n: u32) -> usize
    ensures { result ≡ share_size_def (shelf t) n }
{
    LENGTH + fragment_size(t, n) + digests_size(t) + DIGEST + tags_size(t)
}
