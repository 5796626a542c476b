// The parameters and ranges of a shelf stand in specs/. The struct is what definitions and code share; the constants are those of specs/Ranges.
#![tactic(auto)]

ghost use Rattle.std.specs.Prelude.{◌≡◌, not};
ghost use Rattle.cluster.specs.Config.{shelf};
ghost use Rattle.cluster.specs.Ranges.{within};
ghost use Rattle.cluster.specs.Refusals.{refusal_number, outcome_told};

// The largest t, and the most servers that a shelf can have.
pub const TOP_FAULTS: usize = 4;

pub const MOST_SERVERS: usize = 13;

// Clients 1 to 8 may write, 1 to 16 may read.
pub const TOP_WRITER: usize = 8;

pub const TOP_CLIENT: usize = 16;

// The largest call number and the largest stamp number.
pub const TOP_NUMBER: usize = 99999999;

// The most bytes of a content.
pub const TOP_LENGTH: usize = 1024;

// Bytes of a key, a nonce and a digest.
pub const KEY: usize = 32;

// Least output buffers: for a packet, for a content.
pub const PACKET_ROOM: usize = 6400;

pub const CONTENT_ROOM: usize = 1024;

// Bytes of a server's memory, and the stored writes that it can hold.
pub const MEMORY: usize = 40960;

pub const CAPACITY: usize = 32;

// The refusals of documents 01 and 02.
#[derive(Clone, Copy, PartialEq, Eq)]
pub enum Refusal {
    MemorySize, // a memory or a work area has another length
    Memory, // the memory is no server record
    Faults, // t is outside 1 to 4
    Server, // the server is outside 1 to S
    Client, // the client is outside its range
    Length, // a content is longer than the most
    Layout, // a packet breaks the layout
    Addressee, // a packet is for another shelf, server or client
    Sender, // a server gets a reply, or a request that its client may not send
    Reply, // no reply of this call and round, or a second one
    Hand, // a begin with a call in hand; another step with none
    Numbers, // a number would pass its top
    Room, // the output has too little room
    Fragments, // too few different servers, or fragments of another length
    Line, // a drill line is not of the form
    Stores, // a plan's stores are more than a memory holds
    WrongSize, // a lent buffer, for whose length document 01's table has no number, is not of its size
}

impl Refusal {
    // The refusal's number in the tables of documents 01 and 02.
    pub fn number(self) -> u8
        ensures { result ≡ refusal_number self }
    {
        match self {
            Refusal::MemorySize => 1,
            Refusal::Memory => 2,
            Refusal::Faults => 3,
            Refusal::Server => 4,
            Refusal::Client => 5,
            Refusal::Length => 6,
            Refusal::Layout => 7,
            Refusal::Addressee => 8,
            Refusal::Sender => 9,
            Refusal::Reply => 12,
            Refusal::Hand => 13,
            Refusal::Numbers => 14,
            Refusal::Room => 15,
            Refusal::Fragments => 16,
            Refusal::Line => 17,
            Refusal::Stores => 18,
            Refusal::WrongSize => 255,
        }
    }
}

// What an operation answers: 0 or a refusal's number, and the bytes written to the output buffer.
#[derive(Clone, Copy)]
pub struct Outcome {
    pub number: u8,
    pub count: usize,
}

// 0 and the bytes written, or a refusal's number and no bytes.
impl From<Result<usize, Refusal>> for Outcome {
    ghost from_gives = { λ told outcome. outcome ≡ outcome_told told };

    fn from(told: Result<usize, Refusal>) -> Outcome {
        match told {
            Ok(count) => Outcome { number: 0, count },
            Err(why) => Outcome {
                number: why.number(),
                count: 0,
            },
        }
    }
}

// S: how many servers there are.
#[tactic(auto, unfolding(crate::specs::Config::shelf))]
pub fn servers(t: u8) -> usize
    ensures { result ≡ (shelf t).servers }
{
    3 * usize::from(t) + 1
}

// k: how many fragments give a content back.
#[tactic(auto, unfolding(crate::specs::Config::shelf))]
pub fn threshold(t: u8) -> usize
    ensures { result ≡ (shelf t).threshold }
{
    usize::from(t) + 1
}

// Not lo to hi.
pub fn outside(lo: usize, hi: usize, x: usize) -> bool
    ensures { result ≡ not (within lo hi x) }
{
    x < lo || hi < x
}
