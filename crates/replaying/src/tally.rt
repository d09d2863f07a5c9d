// How the cases went.
ghost use Rattle.std.specs.Prelude.{◌≡◌};
ghost use Rattle.replaying.specs.Judged.{counted};

use crate::answer::Verdict;
use std::fmt;

// How many cases were met, differ and were skipped, the first that differs, and the one that is malformed, behind the last.
#[derive(Clone, Copy)]
pub struct Tally {
    pub met: u64,
    pub differ: u64,
    pub skipped: u64,
    pub first: Option<u64>,
    pub malformed: Option<u64>,
}

impl Tally {
    pub fn new() -> Tally
        ensures { result ≡ record { met = 0; differ = 0; skipped = 0; first = None; malformed = None } }
    {
        Tally {
            met: 0,
            differ: 0,
            skipped: 0,
            first: None,
            malformed: None,
        }
    }

    // One more case. There are fewer cases than bytes, so no sum wraps.
    pub fn add(&mut self, verdict: Verdict)
        ensures { self.new ≡ counted self.old verdict }
    {
        let case = self.met;
        self.met = case.wrapping_add(1);
        match verdict {
            Verdict::Same => {}
            Verdict::Skipped => self.skipped = self.skipped.wrapping_add(1),
            Verdict::Differs => {
                self.differ = self.differ.wrapping_add(1);
                self.first = self.first.or(Some(case));
            }
        }
    }
}

impl fmt::Display for Tally {
    fn fmt<W: fmt::Write>(&self, f: &mut fmt::Formatter<W>) -> fmt::Result {
        let met = self.met;
        let differ = self.differ;
        let skipped = self.skipped;
        let replayed = met.wrapping_sub(skipped);
        write!(f, "{replayed} replayed, {differ} differ, {skipped} skipped")?;
        if let Some(first) = self.first {
            write!(f, ", the first that differs is case {first}")?;
        }
        if let Some(case) = self.malformed {
            write!(f, ", malformed at case {case}")?;
        }
        Ok(())
    }
}
