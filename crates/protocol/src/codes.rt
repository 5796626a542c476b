// What a reply to store says.
ghost use Rattle.std.specs.Prelude.{◌≡◌, ◌<◌, ◌⊎◌, MatchOption};
ghost use Rattle.protocol.specs.Kinds.{code_number, code_told};

#[derive(Clone, Copy, PartialEq, Eq)]
pub enum Code {
    Kept, // the write is kept
    Held, // a write of this stamp is held already
    Full, // the history is full
}

impl Code {
    // A code's number in packets.
    pub fn number(self) -> u8
        ensures { result ≡ code_number self }
    {
        match self {
            Code::Kept => 0,
            Code::Held => 10,
            Code::Full => 11,
        }
    }

    // The code of this number; other numbers have none.
    pub fn of(number: u8) -> Option<Code>
        ensures value { result ≡ code_told number }
        ensures number { MatchOption result (((0 < number) × (number < 10)) ⊎ (11 < number)) (λ code. code_number code ≡ number) }
    {
        match number {
            0 => Some(Code::Kept),
            10 => Some(Code::Held),
            11 => Some(Code::Full),
            _ => None,
        }
    }
}
