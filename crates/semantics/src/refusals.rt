// What a call refuses, and the number that it returns for it; 0 is what it returns where it accepts.
ghost use Rattle.semantics.specs.Refusals.{NumberOf, number_of};
ghost use Rattle.std.specs.Prelude.{◌≡◌};

#[derive(Clone, Copy, Debug, PartialEq, Eq)]
pub enum Refusal {
    // A sheet of more bytes than there may be.
    SheetTooLong,
    // A work area or a store that has not its size; bytes that are no store.
    WrongSize,
    // A line that is badly written, not allowed where it stands, or missing.
    BadlyWritten,
    // A field outside its range.
    OutOfRange,
    // An expression for which no level is left.
    TooDeep,
    // A type of more bytes or nesting than there may be.
    TypeTooLarge,
    // An output that is too short.
    OutputTooShort,
    // A text that is no type line.
    NoTypeLine,
    // Two types that do not unify.
    Mismatch,
    // A text that is no old type line.
    NoOldLine,
    // A store with no room for a new type.
    StoreFull,
    // A number or a use that would pass the last one.
    CountUsedUp,
    // A number under which no type is live.
    NotLive,
}

impl From<Refusal> for u32 {
    ghost from_gives = { NumberOf };

    fn from(why: Refusal) -> u32 {
        match why {
            Refusal::SheetTooLong => 1,
            Refusal::WrongSize => 2,
            Refusal::BadlyWritten => 3,
            Refusal::OutOfRange => 4,
            Refusal::TooDeep => 5,
            Refusal::TypeTooLarge => 6,
            Refusal::OutputTooShort => 7,
            Refusal::NoTypeLine => 8,
            Refusal::Mismatch => 9,
            Refusal::NoOldLine => 12,
            Refusal::StoreFull => 13,
            Refusal::CountUsedUp => 14,
            Refusal::NotLive => 15,
        }
    }
}

impl From<Refusal> for u64 {
    ghost from_gives = { NumberOf };

    fn from(why: Refusal) -> u64 {
        u64::from(u32::from(why))
    }
}

// What a call answers when it refuses, with the number that it returns beside it: a place, a line, or 0.
#[derive(Clone, Copy, Debug, PartialEq, Eq)]
pub struct Refused {
    pub why: Refusal,
    pub place: u64,
}

// A refusal that has no place says 0.
impl From<Refusal> for Refused {
    ghost from_gives = { λ why refused. refused ≡ record { why = why; place = 0 } };

    fn from(why: Refusal) -> Refused {
        Refused { why, place: 0 }
    }
}
