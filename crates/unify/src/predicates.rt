// What a type is by its letter: `Type::is_any`, `is_unknown`, `is_numeric` (ty.rs). Each is one comparison, and `numeric`
// is a definition of this crate's specs: so they stand here and not in `ty`.
ghost use Rattle.std.specs.Prelude.{◌≡◌, eqb};
ghost use Rattle.semantics.specs.Codes.{any_letter, unknown_letter};
ghost use Rattle.unify.specs.Predicates.{numeric};

use ty::{ANY, INT, NUM, UNKNOWN};

// Any.
pub fn is_any(kind: u8) -> bool
    ensures { result ≡ eqb kind any_letter }
{
    kind == ANY
}

// Unknown.
pub fn is_unknown(kind: u8) -> bool
    ensures { result ≡ eqb kind unknown_letter }
{
    kind == UNKNOWN
}

// Int, Float, Num.
#[tactic(auto, unfolding(crate::specs::Predicates::numeric))]
pub fn is_numeric(kind: u8) -> bool
    ensures { result ≡ numeric kind }
{
    matches!(kind, INT..=NUM)
}
