// Unification of type lines in a work area (unify.rs): operands below a mark, the answer from the mark on. (Area and mark are no struct:
// the recursion lends a shorter area each time, see `unify_part`.)
#![tactic(auto)]

mod arms;
mod flat;
mod maps;
mod parts;
mod predicates;
mod unions;

pub use parts::unify;

// Where a type stands in the work area.
#[derive(Clone, Copy, Debug, PartialEq, Eq)]
pub struct Span {
    pub from: usize,
    pub to: usize,
}

impl Span {
    ghost use Rattle.std.specs.Prelude.{◌≡◌, ◌+◌, ◌-◌, ◌≤◌};
    ghost use Rattle.unify.specs.Work.{span};

    // The element of a list: what stands behind `J,`.
    fn element(self) -> Span
        requires { self.from + 2 ≤ self.to }
        ensures { result ≡ span (self.from + 2) self.to }
    {
        Span {
            from: self.from + 2,
            to: self.to,
        }
    }

    // The members of a union: what stands between `O,` and `!,`.
    fn members(self) -> Span
        requires { self.from + 4 ≤ self.to }
        ensures { result ≡ span (self.from + 2) (self.to - 2) }
    {
        Span {
            from: self.from + 2,
            to: self.to - 2,
        }
    }
}

// Why there is no answer: inner types that do not unify, still where they were (`TypeMismatch`); or it would be too large.
#[derive(Clone, Copy, Debug, PartialEq, Eq)]
pub enum UnifyError {
    Mismatch { expected: Span, actual: Span },
    TooLarge,
}
