// Stamps and candidates' heads by value. The type Stamp, its blank, its order and its tests stand in crate protocol.
ghost use Rattle.std.specs.Prelude.{◌≡◌};
ghost use Rattle.protocol.specs.Values.{label_of, rank, below, stamp_size};
ghost use Rattle.protocol.specs.View.{stamp_at_def};
ghost use Rattle.wire.specs.Places.{padded, blank_head, same_head, head_at_def};

use crate::bytes::{byte_at, first_bytes, nonce_of, number4, rest};

// Number and writer of the stamp of the first bytes.
#[tactic(auto, unfolding(protocol::specs::View::stamp_at_def))]
pub fn label_at(s: &[u8]) -> protocol::Label
    ensures { result ≡ label_of (stamp_at_def s.now) }
{
    protocol::Label {
        number: number4(s),
        writer: byte_at(s, crate::sizes::NUMBER),
    }
}

// The stamp of the first bytes.
pub fn stamp_at(s: &[u8]) -> protocol::Stamp
    ensures { result ≡ stamp_at_def (padded stamp_size s.now) }
{
    let label = label_at(s);
    protocol::Stamp::new(
        label.number,
        label.writer,
        first_bytes(rest(s, crate::sizes::LABEL)),
    )
}

// The rank of the stamp of the first bytes: its place in the order of stamps.
pub fn rank_at(s: &[u8]) -> u64
    ensures { result ≡ rank (stamp_at_def s.now) }
{
    let label = label_at(s);
    protocol::Stamp::rank_of(label.number, label.writer)
}

// A candidate without its tags.
#[derive(Clone, Copy, PartialEq, Eq)]
pub struct CandidateHead {
    pub stamp: protocol::Stamp,
    pub nonce: [u8; cluster::KEY],
}

impl CandidateHead {
    // All zero.
    pub const BLANK: CandidateHead = CandidateHead {
        stamp: protocol::Stamp::BLANK,
        nonce: [0; cluster::KEY],
    };

    pub const fn blank() -> CandidateHead
        ensures { result ≡ blank_head }
    {
        CandidateHead::BLANK
    }

    pub fn new(stamp: protocol::Stamp, nonce: [u8; cluster::KEY]) -> CandidateHead
        ensures { result ≡ record { stamp = stamp; nonce = nonce } }
    {
        CandidateHead { stamp, nonce }
    }

    #[tactic(auto, using(protocol::proofs::Equal::compared), unfolding(crate::specs::Places::same_head))]
    pub fn is_blank(self) -> bool
        ensures { result ≡ same_head self blank_head }
    {
        self.stamp.is_blank() && self.nonce == CandidateHead::blank().nonce
    }

    // Candidates are ordered by their stamps.
    pub fn below(self, other: CandidateHead) -> bool
        ensures { result ≡ below self.stamp other.stamp }
    {
        self.stamp.below(other.stamp)
    }
}

// The candidate's head of the first bytes.
#[tactic(auto, unfolding(crate::specs::Places::head_at_def))]
pub fn head_at(s: &[u8]) -> CandidateHead
    ensures { result ≡ head_at_def s.now }
{
    CandidateHead::new(stamp_at(s), nonce_of(rest(s, crate::sizes::STAMP)))
}
