// The places in the bytes that a client keeps for its call, as crate protocol's View gives them: the content, the nonce, the candidate of the
// write or of repair, a slot for each server's candidate, and a slot for each server's share or reply.

pub const KEPT: usize = 24576;

pub const NONCE: usize = cluster::TOP_LENGTH;

pub const CHOSEN: usize = NONCE + crate::sizes::NONCE;

pub const CANDIDATE_SLOT: usize = crate::sizes::NAME + hmac::TAG * cluster::MOST_SERVERS;

pub const CANDIDATES: usize = CHOSEN + CANDIDATE_SLOT;

pub const REPLIES: usize = CANDIDATES + CANDIDATE_SLOT * cluster::MOST_SERVERS;

pub const REPLY_SLOT: usize = 1200;
