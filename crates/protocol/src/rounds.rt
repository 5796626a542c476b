// Rounds of a call: three of a write, then three of a read.
ghost use Rattle.std.specs.Prelude.{◌≡◌, ◌<◌, ◌⊎◌, ◌*◌, ◌-◌, MatchOption};
ghost use Rattle.protocol.specs.Kinds.{kind_number, round_number, round_told, request_of, reply_of};

use crate::kinds::Kind;

#[derive(Clone, Copy, PartialEq, Eq)]
pub enum Round {
    Clock,
    Store,
    Complete,
    Collect,
    Filter,
    Repair,
}

impl Round {
    // A round's number in a state.
    pub fn number(self) -> u8
        ensures { result ≡ round_number self }
    {
        match self {
            Round::Clock => 1,
            Round::Store => 2,
            Round::Complete => 3,
            Round::Collect => 4,
            Round::Filter => 5,
            Round::Repair => 6,
        }
    }

    // The round of this number; 0, no call in hand, has none, nor has a number above 6.
    pub fn of(number: u8) -> Option<Round>
        ensures value { result ≡ round_told number }
        ensures number { MatchOption result ((number ≡ 0) ⊎ (6 < number)) (λ round. round_number round ≡ number) }
    {
        match number {
            1 => Some(Round::Clock),
            2 => Some(Round::Store),
            3 => Some(Round::Complete),
            4 => Some(Round::Collect),
            5 => Some(Round::Filter),
            6 => Some(Round::Repair),
            _ => None,
        }
    }

    // The kind of the packets that the round sends.
    pub fn request(self) -> Kind
        ensures value { result ≡ request_of self }
        ensures number { kind_number result ≡ 2 * round_number self - 1 }
    {
        match self {
            Round::Clock => Kind::Clock,
            Round::Store => Kind::Store,
            Round::Complete => Kind::Complete,
            Round::Collect => Kind::Collect,
            Round::Filter => Kind::Filter,
            Round::Repair => Kind::Repair,
        }
    }

    // The kind of the replies that the round awaits.
    pub fn reply(self) -> Kind
        ensures value { result ≡ reply_of self }
        ensures number { kind_number result ≡ 2 * round_number self }
    {
        match self {
            Round::Clock => Kind::ClockReply,
            Round::Store => Kind::StoreReply,
            Round::Complete => Kind::CompleteReply,
            Round::Collect => Kind::CollectReply,
            Round::Filter => Kind::FilterReply,
            Round::Repair => Kind::RepairReply,
        }
    }
}
