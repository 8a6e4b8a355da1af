// Why a call refuses, by the numbers of document 01's table. 12 keeps its place in it, though no call gives it since document 02
// (C-13).
ghost use Rattle.std.specs.Prelude.{◌≡◌};
ghost use Rattle.field.specs.Number.{refusal_number, number_of};

#[derive(Clone, Copy, Debug, PartialEq, Eq)]
pub enum Refusal {
    LimitExceeded = 1,
    TooManyColumns = 2,
    HeightNotOneBit = 3,
    LayoutHeightExceeded = 4,
    LayoutRowOverflow = 5,
    HeightsRise = 6,
    NoColumn = 7,
    OutOfTurn = 8,
    WrongLength = 9,
    NotCanonical = 10,
    NoSuchColumn = 11,
    InSkipSubgroup = 12,
    S0Mismatch = 13,
    FinalSumMismatch = 14,
}

// The number of the table.
impl From<Refusal> for u32 {
    ghost from_gives = { λ refusal number. number ≡ refusal_number refusal };

    fn from(refusal: Refusal) -> u32 {
        refusal as u32
    }
}

// The number of an answer: 0 for done.
pub fn number(answer: Result<(), Refusal>) -> u32
    ensures { result ≡ number_of answer }
{
    match answer {
        Ok(()) => 0,
        Err(refusal) => refusal.into(),
    }
}
