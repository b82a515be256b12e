#![tactic(auto)]

ghost use Rattle.std.specs.Prelude.{◌≡◌};
ghost use Rattle.refusals.specs.Numbers.{number_of};

// Why an operation refuses, in the order of document 01's numbers.
#[derive(Clone, Copy, Debug, PartialEq, Eq)]
pub enum Refusal {
    Size,
    Length,
    Room,
    Byte,
    Outside,
    White,
    Same,
    Target,
    Table,
    Number,
    Stones,
    Far,
    Unplaced,
    Timing,
    Turned,
    Index,
    File,
}

// The number that document 01 gives a refusal.
impl From<Refusal> for u8 {
    ghost from_gives = { λ why number. number ≡ number_of why };

    fn from(why: Refusal) -> u8
        ensures { result ≡ number_of why }
    {
        match why {
            Refusal::Size => 1,
            Refusal::Length => 2,
            Refusal::Room => 3,
            Refusal::Byte => 4,
            Refusal::Outside => 5,
            Refusal::White => 6,
            Refusal::Same => 7,
            Refusal::Target => 8,
            Refusal::Table => 9,
            Refusal::Number => 10,
            Refusal::Stones => 11,
            Refusal::Far => 12,
            Refusal::Unplaced => 13,
            Refusal::Timing => 14,
            Refusal::Turned => 15,
            Refusal::Index => 16,
            Refusal::File => 17,
        }
    }
}
