// The protocol's definitions stand in specs/, their laws in proofs/. The structs here are the values that definitions and code share.
#![tactic(auto)]

ghost use Rattle.std.specs.Prelude.{◌≡◌};
ghost use Rattle.protocol.specs.Values.{blank_stamp, same_stamp, rank_by, below};
ghost use Rattle.protocol.specs.Answers.{bare, refused_answer, taken_told, aborted_told};
ghost use Rattle.cluster.specs.Refusals.{refusal_number};

use cluster::Refusal;

pub mod kinds; // kinds of packets
pub mod rounds; // rounds of a call
pub mod codes; // what a reply to store says

// A stamp (timestamp): number, writer, and the writers'-key tag of both.
#[derive(Clone, Copy, PartialEq, Eq)]
pub struct Stamp {
    pub number: u32,
    pub writer: u8,
    pub tag: [u8; hmac::TAG],
}

impl Stamp {
    // All zero.
    pub const BLANK: Stamp = Stamp {
        number: 0,
        writer: 0,
        tag: [0; hmac::TAG],
    };

    pub const fn blank() -> Stamp
        ensures { result ≡ blank_stamp }
    {
        Stamp::BLANK
    }

    pub fn new(number: u32, writer: u8, tag: [u8; hmac::TAG]) -> Stamp
        ensures { result ≡ record { number = number; writer = writer; tag = tag } }
    {
        Stamp {
            number,
            writer,
            tag,
        }
    }

    // Equality is of all three: number, writer and tag.
    #[tactic(auto, using(crate::proofs::Equal::compared), unfolding(crate::specs::Values::same_stamp))]
    pub fn same(self, other: Stamp) -> bool
        ensures { result ≡ same_stamp self other }
    {
        self == other
    }

    pub fn is_blank(self) -> bool
        ensures { result ≡ same_stamp self blank_stamp }
    {
        self.same(Stamp::BLANK)
    }

    // The place of a number and a writer in the order of stamps, as one number.
    pub fn rank_of(number: u32, writer: u8) -> u64
        ensures { result ≡ rank_by number writer }
    {
        256 * u64::from(number) + u64::from(writer)
    }

    // Order is by number, then writer. Not PartialOrd, whose order would have to tell tags apart.
    pub fn below(self, other: Stamp) -> bool
        ensures { result ≡ below self other }
    {
        Stamp::rank_of(self.number, self.writer) < Stamp::rank_of(other.number, other.writer)
    }
}

// A stamp without its tag: what tells two writes of right writers apart.
#[derive(Clone, Copy)]
pub struct Label {
    pub number: u32,
    pub writer: u8,
}

// A packet's head. Document 01 says box for server. The kind is a number, as the definitions' packets have it; who reads it asks `Kind::of`.
#[derive(Clone, Copy)]
pub struct Head {
    pub kind: u8,
    pub client: u8,
    pub server: u8,
    pub t: u8,
    pub call: u32,
}

// The round of a pending call (0: none), how many servers have replied in it, and which. A state holds any number there; who reads it asks `Round::of`.
#[derive(Clone, Copy)]
pub struct Tally {
    pub round: u8,
    pub count: u8,
    pub marks: [u8; cluster::MOST_SERVERS],
}

// A client's small state: the last call's number, the number of the last stamp made, the highest number seen in clock,
// the length of the content kept, and the round.
#[derive(Clone, Copy)]
pub struct Call {
    pub number: u32,
    pub last: u32,
    pub high: u32,
    pub length: u16,
    pub tally: Tally,
}

// An answer in document 01's numbers: a result; number and writer of a stamp with 1 and 2, the length of a content with 2, else 0.
#[derive(Clone, Copy)]
pub struct Answer {
    pub result: u16,
    pub number: u32,
    pub writer: u8,
    pub length: u16,
}

// Results above it tell a refusal.
pub const REFUSALS: u16 = 100;

fn bare(res: u16) -> Answer
    ensures { result ≡ bare res }
{
    Answer {
        result: res,
        number: 0,
        writer: 0,
        length: 0,
    }
}

impl From<Refusal> for Answer {
    ghost from_gives = { λ why a. a ≡ refused_answer (refusal_number why) };

    fn from(why: Refusal) -> Answer {
        bare(REFUSALS + u16::from(why.number()))
    }
}

// What a taken reply gives: nothing yet, number and writer of the stamp written, those of the stamp read with the content's length, or blank.
#[derive(Clone, Copy)]
pub enum Taken {
    More,
    Written(u32, u8),
    Read(u32, u8, u16),
    Blank,
}

impl From<Result<Taken, Refusal>> for Answer {
    ghost from_gives = { λ told a. a ≡ taken_told told };

    fn from(told: Result<Taken, Refusal>) -> Answer {
        match told {
            Err(why) => Answer::from(why),
            Ok(Taken::More) => bare(0),
            Ok(Taken::Written(number, writer)) => Answer {
                result: 1,
                number,
                writer,
                length: 0,
            },
            Ok(Taken::Read(number, writer, length)) => Answer {
                result: 2,
                number,
                writer,
                length,
            },
            Ok(Taken::Blank) => bare(3),
        }
    }
}

// What giving up answers: whether the complete round had begun.
#[derive(Clone, Copy)]
pub enum Aborted {
    Before,
    InComplete,
}

impl From<Result<Aborted, Refusal>> for Answer {
    ghost from_gives = { λ told a. a ≡ aborted_told told };

    fn from(told: Result<Aborted, Refusal>) -> Answer {
        match told {
            Err(why) => Answer::from(why),
            Ok(Aborted::Before) => bare(4),
            Ok(Aborted::InComplete) => bare(5),
        }
    }
}
