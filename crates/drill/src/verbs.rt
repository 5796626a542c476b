// The verbs of a sheet.
ghost use Rattle.std.specs.Prelude.{◌≡◌, ◌<◌, MatchOption};
ghost use Rattle.drill.specs.Reads.{verb_number};

#[derive(Clone, Copy, PartialEq, Eq)]
pub enum Verb {
    Shelf,
    Write,
    Read,
    Visit,
    Unlatest,
    Stop,
}

impl Verb {
    // The verb that a sheet names by this number.
    pub(crate) fn of(number: u32) -> Option<Verb>
        ensures { MatchOption result (5 < number) (λ v. number ≡ verb_number v) }
    {
        match number {
            0 => Some(Verb::Shelf),
            1 => Some(Verb::Write),
            2 => Some(Verb::Read),
            3 => Some(Verb::Visit),
            4 => Some(Verb::Unlatest),
            5 => Some(Verb::Stop),
            _ => None,
        }
    }
}
