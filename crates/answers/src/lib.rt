// Why a call is refused, by name (docs/ANSWERS.md), and what the refusal carries. A call that is not refused is done, which is 0. desk/cop6.h has the numbers for C.
#![tactic(auto)]

ghost use Rattle.std.specs.Prelude.{◌≡◌};
ghost use Rattle.answers.specs.Answer.{number_of, carried_of};

// In the order of their numbers, 1 to 15.
#[derive(Clone, Copy, PartialEq, Eq, Debug)]
pub enum Refusal {
    // On while power is on; any other event, or a read, while it is off.
    Power,
    // A time before the present, or past 2099.
    Time,
    // More units than a half-hour may have.
    Units,
    // A store or a ledger of another length.
    Length,
    // Fields out of range, or a block that the reader would refuse.
    Damaged,
    // A value given, or a day asked for, out of range.
    Range,
    // An output without room: the bytes needed.
    Short(u32),
    NoBlock,
    // A field of a block is wrong by itself: the byte that it begins at.
    Field(u32),
    // The fields of a block do not go together.
    Inconsistent,
    OtherMeter,
    // Something else is held already.
    Differs,
    // A time before the running half-hour began.
    Ended,
    // Two entries of a switching table that cover the same day, or switch at the same time.
    Clash,
    // A Rate while a switching table is loaded.
    Loaded,
}

impl Refusal {
    pub fn number(self) -> u32
        ensures { result ≡ number_of self }
    {
        match self {
            Refusal::Power => 1,
            Refusal::Time => 2,
            Refusal::Units => 3,
            Refusal::Length => 4,
            Refusal::Damaged => 5,
            Refusal::Range => 6,
            Refusal::Short(_) => 7,
            Refusal::NoBlock => 8,
            Refusal::Field(_) => 9,
            Refusal::Inconsistent => 10,
            Refusal::OtherMeter => 11,
            Refusal::Differs => 12,
            Refusal::Ended => 13,
            Refusal::Clash => 14,
            Refusal::Loaded => 15,
        }
    }

    // Of most refusals nothing, which is 0.
    pub fn carried(self) -> u32
        ensures { result ≡ carried_of self }
    {
        match self {
            Refusal::Short(bytes) => bytes,
            Refusal::Field(at) => at,
            _ => 0,
        }
    }
}
