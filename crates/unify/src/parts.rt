// Unification: the parts of two lists, maps or unions are unified one pair after the other.
ghost use Rattle.unify.specs.Work.{Ready, PartReady, Unifies};
ghost use Rattle.unify.specs.Lists.{SomeLists, ListsAnswer};
ghost use Rattle.unify.specs.Merges.{SomeMaps, MapsAnswer};
ghost use Rattle.unify.specs.Variants.{SomeOuter, OuterJoined, SomeOuters, UnionAnswer};

use crate::arms::{Arm, arm_of};
use crate::flat::{closed, copied, tested, unify_label_sets, unify_null};
use crate::maps::{keep_lone, next_values};
use crate::unions::widen;
use crate::{Span, UnifyError};
use ty::{Merge, NULL};

// A pair of parts, its answer from `at` on; what a type takes at most less is lent behind that, so that the recursion ends.
#[cycle(unify)]
fn unify_part(
    work: &mut [u8],
    a: Span,
    b: Span,
    at: usize,
    mark: usize,
) -> Result<usize, UnifyError>
    requires { PartReady work.old a b at mark }
    ensures { Unifies work.old work.new a b at result }
{
    let end = at + (work.len() - mark - semantics::TYPE_LIMIT);
    unify(&mut work[..end], a, b, at)
}

// Two lists: their elements.
#[cycle(unify)]
fn unify_lists(work: &mut [u8], a: Span, b: Span, mark: usize) -> Result<usize, UnifyError>
    requires { SomeLists work.old a b mark }
    ensures { ListsAnswer work.old work.new a b mark result }
{
    text::copy_in(work, a.from, mark, 2);
    let end = unify_part(work, a.element(), b.element(), mark + 2, mark)?;
    tested(work, mark, end)
}

// Two maps: the entries of both in the order of their names; the values of a common name are unified, the other entries are kept.
#[cycle(unify)]
fn unify_maps(work: &mut [u8], a: Span, b: Span, mark: usize) -> Result<usize, UnifyError>
    requires { SomeMaps work.old a b mark }
    ensures { MapsAnswer work.old work.new a b mark result }
{
    text::copy_in(work, a.from, mark, 2);
    let start = Merge {
        p: a.from + 2,
        q: b.from + 2,
        n: Some(2),
    };
    let mut m = keep_lone(work, start, mark);
    while let Some(values) = next_values(work, m, mark) {
        let end = unify_part(work, values.first, values.second, values.at, mark)?;
        let after = Merge {
            p: values.first.to,
            q: values.second.to,
            n: ty::kept(values.kept, end - values.at),
        };
        m = keep_lone(work, after, mark);
    }
    let n = ty::close_line(work, mark, m.n).ok_or(UnifyError::TooLarge)?;
    tested(work, mark, mark + n)
}

// An outer type meets the variants of a union one after the other, and what comes of each pair joins the running union of n bytes. Null
// meets none. If no variant took it, the variants and the type itself join.
#[cycle(unify)]
fn meet_variants(
    work: &mut [u8],
    outer: Span,
    variants: Span,
    mark: usize,
    n: usize,
) -> Result<usize, UnifyError>
    requires { SomeOuter work.old outer variants mark n }
    ensures { OuterJoined work.old work.new outer variants mark n result }
{
    let mut len = n;
    let mut met = false;
    let first = outer.from;
    let mut next = if work[first] == NULL {
        variants.to
    } else {
        variants.from
    };
    // By place, and no iterator: the work area is written in each turn.
    while next < variants.to {
        let variant = Span {
            from: next,
            to: ty::type_end(work, next),
        };
        match unify_part(work, variant, outer, mark + len, mark) {
            Ok(end) => {
                len = ty::add_union(&mut work[mark..], len, end - mark).ok_or(
                    UnifyError::TooLarge,
                )?;
                met = true;
            }
            Err(UnifyError::Mismatch { .. }) => {}
            Err(UnifyError::TooLarge) => return Err(UnifyError::TooLarge),
        }
        next = variant.to;
    }
    if met {
        return Ok(len);
    }
    widen(work, variants, outer, mark, len).ok_or(UnifyError::TooLarge)
}

// A union and another type, or two unions: each outer type meets the variants, and what comes of it joins one running union.
#[cycle(unify)]
fn unify_union_with(
    work: &mut [u8],
    outers: Span,
    variants: Span,
    mark: usize,
) -> Result<usize, UnifyError>
    requires { SomeOuters work.old outers variants mark }
    ensures { UnionAnswer work.old work.new outers variants mark result }
{
    let mut n = 0;
    let mut next = outers.from;
    // By place, as above.
    while next < outers.to {
        let outer = Span {
            from: next,
            to: ty::type_end(work, next),
        };
        n = meet_variants(work, outer, variants, mark, n)?;
        next = outer.to;
    }
    closed(work, mark, n)
}

// Unifies two types, both below the mark; the answer stands from the mark on, and ends at the returned place.
#[cycle(unify)]
pub fn unify(work: &mut [u8], a: Span, b: Span, mark: usize) -> Result<usize, UnifyError>
    requires { Ready work.old a b mark }
    ensures { Unifies work.old work.new a b mark result }
{
    match arm_of(work, a, b) {
        Arm::Left => Ok(copied(work, a, mark)),
        Arm::Right => Ok(copied(work, b, mark)),
        Arm::AnyUnknown => Ok(text::append(work, mark, b"P,")),
        Arm::NullLeft => unify_null(work, b, mark),
        Arm::NullRight => unify_null(work, a, mark),
        Arm::Numbers => Ok(text::append(work, mark, b"F,")),
        Arm::Lists => unify_lists(work, a, b, mark),
        Arm::Maps => unify_maps(work, a, b, mark),
        Arm::Nodes => unify_label_sets(work, a, b, mark),
        Arm::Relationships => Ok(text::append(work, mark, b"M,!,")),
        Arm::Unions => unify_union_with(work, a.members(), b.members(), mark),
        Arm::UnionLeft => unify_union_with(work, b, a.members(), mark),
        Arm::UnionRight => unify_union_with(work, a, b.members(), mark),
        Arm::Apart => Err(UnifyError::Mismatch {
            expected: a,
            actual: b,
        }),
    }
}
