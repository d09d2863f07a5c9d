// Types of two or four bytes, written to the front. The work area is a slice of no one length, since a child is lent what is behind its
// mark: that there is room for a type (`type_limit`) is asked for, as an array of that room would have to be made of it at each call.
ghost use Rattle.std.specs.Prelude.{◌≡◌, [], ◌∷◌, ◌+◌, ◌≤◌, length};
ghost use Rattle.std.proofs.lemmas.List.Edits.{sets};
ghost use Rattle.semantics.specs.Limits.{type_limit};
ghost use Rattle.semantics.specs.Codes.{comma};
ghost use Rattle.semantics.specs.Ty.{t_bool, base};
ghost use Rattle.exprs.specs.End.{Puts, Settles};

use text::COMMA;
use ty::BOOL;

// A field of one letter at a place.
pub fn put_field(work: &mut [u8], at: usize, a: u8)
    requires { at + 2 ≤ length work.old }
    ensures { work.new ≡ sets work.old at (a ∷ comma ∷ []) }
{
    work[at] = a;
    work[at + 1] = COMMA;
}

// A type of one letter at the front.
pub fn put_letter(work: &mut [u8], a: u8) -> usize
    requires { type_limit ≤ length work.old }
    ensures { Puts (a ∷ comma ∷ []) work.old work.new result }
{
    put_field(work, 0, a);
    2
}

// A type of two fields at the front, or two types of one letter each.
pub fn put_pair(work: &mut [u8], a: u8, b: u8) -> usize
    requires { type_limit ≤ length work.old }
    ensures { Puts (a ∷ comma ∷ b ∷ comma ∷ []) work.old work.new result }
{
    put_field(work, 0, a);
    put_field(work, 2, b);
    4
}

// Bool at the front.
pub fn is_bool(work: &mut [u8]) -> usize
    requires { type_limit ≤ length work.old }
    ensures { Settles (base t_bool) work.old work.new result }
{
    put_letter(work, BOOL)
}
