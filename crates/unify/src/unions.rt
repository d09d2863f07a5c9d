// Types join the running union, which stands from the mark on.
ghost use Rattle.unify.specs.Variants.{Joining, Joined, Widening, Widened};

use crate::Span;

// Adds these types, none a union, to the running union of n bytes; None: too long.
fn add_copy(work: &mut [u8], types: Span, mark: usize, n: usize) -> Option<usize>
    requires { Joining work.old types mark n }
    ensures { Joined work.old work.new types mark n result }
{
    let k = types.to - types.from;
    text::copy_in(work, types.from, mark + n, k);
    ty::add_members(&mut work[mark..], n, n + k)
}

// No variant took the outer type: the variants and the type itself join.
pub fn widen(work: &mut [u8], variants: Span, outer: Span, mark: usize, n: usize) -> Option<usize>
    requires { Widening work.old variants outer mark n }
    ensures { Widened work.old work.new variants outer mark n result }
{
    let k = add_copy(work, variants, mark, n)?;
    add_copy(work, outer, mark, k)
}
