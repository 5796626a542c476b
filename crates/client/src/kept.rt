// The bytes that a client keeps for its call: what is read and written there. Their places are crate wire's.
ghost use Rattle.std.specs.Prelude.{◌≡◌, cond, ◌≤◌, ◌+◌, leb, length};
ghost use Rattle.cluster.specs.Config.{shelf};
ghost use Rattle.cluster.specs.Ranges.{top_length};
ghost use Rattle.protocol.specs.Values.{label_of};
ghost use Rattle.protocol.specs.View.{kept_size, chosen_of, content_of, nonce_of_def};
ghost use Rattle.format.specs.Reading.{put};

// The bytes at a place where there is room for them. It stays beside wire's put, which tells its callers more than the bytes: they are no plainer by it.
pub(crate) fn write_at(kept: &mut [u8], at: usize, bytes: &[u8])
    requires { at + length bytes.now ≤ length kept.old }
    ensures { kept.new ≡ put kept.old at bytes.now }
{
    let _ = wire::make::put(kept, at, bytes);
}

// Number and writer of the stamp of the write or of repair.
pub(crate) fn chosen_label(kept: &[u8], t: usize) -> protocol::Label
    ensures { result ≡ label_of (chosen_of (shelf t) kept.now).stamp }
{
    wire::values::label_at(wire::bytes::part(kept, wire::kept::CHOSEN, wire::kept::CANDIDATE_SLOT))
}

// The bytes of the content: no more than a content has.
fn content_length(call: protocol::Call) -> usize
    ensures { (result ≡ cond (leb call.length top_length) call.length top_length) × (result ≤ top_length) }
{
    usize::from(call.length).min(cluster::TOP_LENGTH)
}

// The content of a write, or the one that repair will deliver.
pub(crate) fn content(kept: &[u8], call: protocol::Call) -> &[u8]
    ensures { (result.now ≡ content_of call kept.now) × (length result.now ≤ top_length) }
{
    wire::bytes::part(kept, 0, content_length(call))
}

// The nonce of a write, by value.
pub(crate) fn nonce(kept: &[u8]) -> [u8; cluster::KEY]
    requires { length kept.now ≡ kept_size }
    ensures { result ≡ nonce_of_def kept.now }
{
    wire::bytes::nonce_of(wire::bytes::part(kept, wire::kept::NONCE, cluster::KEY))
}
