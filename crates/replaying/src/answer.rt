// What a call answers, and what is said of a case.
ghost use Rattle.std.specs.Prelude.{◌≡◌};
ghost use Rattle.semantics.specs.Refusals.{number_of};
ghost use Rattle.replaying.specs.Judged.{judged};
ghost use Rattle.replaying.specs.Answers.{answered};

use semantics::Refused;

// The number of a call and its two numbers, as a case says them: any number may stand there, and 0 is that of an accepted call, so that an
// enum would have a way for numbers that no call returns.
#[derive(Clone, Copy, PartialEq, Eq)]
pub struct Answer {
    pub number: u64,
    pub first: u64,
    pub second: u64,
}

impl Answer {
    // The answer of a call that accepts.
    pub fn accepted(first: u64, second: u64) -> Answer
        ensures { result ≡ record { number = 0; first = first; second = second } }
    {
        Answer {
            number: 0,
            first,
            second,
        }
    }

    // The answer of a call that tells one number.
    pub fn of_one(outcome: Result<u64, Refused>) -> Answer
        ensures { result ≡ answered outcome }
    {
        match outcome {
            Ok(first) => Answer::accepted(first, 0),
            Err(refused) => Answer::from(refused),
        }
    }
}

impl From<Refused> for Answer {
    ghost from_gives = { λ r a. a ≡ record { number = number_of r.why; first = r.place; second = 0 } };

    fn from(refused: Refused) -> Answer {
        Answer {
            number: u64::from(refused.why),
            first: refused.place,
            second: 0,
        }
    }
}

// What is said of a case: the call does as it says, or does not, or could not be made.
#[derive(Clone, Copy, PartialEq, Eq)]
pub enum Verdict {
    Same,
    Differs,
    Skipped,
}

// (No `From<bool>`: it would not say at the call which of the two is `Same`.)
pub fn judged(is_same: bool) -> Verdict
    ensures { result ≡ judged is_same }
{
    if is_same {
        Verdict::Same
    } else {
        Verdict::Differs
    }
}
