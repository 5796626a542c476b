// Kinds of packets: the requests, each with its reply.
ghost use Rattle.std.specs.Prelude.{◌≡◌, ◌<◌, ◌⊎◌, MatchOption};
ghost use Rattle.protocol.specs.Kinds.{kind_number, kind_told};

#[derive(Clone, Copy, PartialEq, Eq)]
pub enum Kind {
    Clock,
    ClockReply,
    Store,
    StoreReply,
    Complete,
    CompleteReply,
    Collect,
    CollectReply,
    Filter,
    FilterReply,
    Repair,
    RepairReply,
}

impl Kind {
    // A kind's number in packets.
    pub fn number(self) -> u8
        ensures { result ≡ kind_number self }
    {
        match self {
            Kind::Clock => 1,
            Kind::ClockReply => 2,
            Kind::Store => 3,
            Kind::StoreReply => 4,
            Kind::Complete => 5,
            Kind::CompleteReply => 6,
            Kind::Collect => 7,
            Kind::CollectReply => 8,
            Kind::Filter => 9,
            Kind::FilterReply => 10,
            Kind::Repair => 11,
            Kind::RepairReply => 12,
        }
    }

    // The kind of this number; numbers outside 1 to 12 have none.
    pub fn of(number: u8) -> Option<Kind>
        ensures value { result ≡ kind_told number }
        ensures number { MatchOption result ((number ≡ 0) ⊎ (12 < number)) (λ kind. kind_number kind ≡ number) }
    {
        match number {
            1 => Some(Kind::Clock),
            2 => Some(Kind::ClockReply),
            3 => Some(Kind::Store),
            4 => Some(Kind::StoreReply),
            5 => Some(Kind::Complete),
            6 => Some(Kind::CompleteReply),
            7 => Some(Kind::Collect),
            8 => Some(Kind::CollectReply),
            9 => Some(Kind::Filter),
            10 => Some(Kind::FilterReply),
            11 => Some(Kind::Repair),
            12 => Some(Kind::RepairReply),
            _ => None,
        }
    }
}
