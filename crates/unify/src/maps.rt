// The entries of two maps, in the order of their names.
ghost use Rattle.unify.specs.Merges.{SomeEntry, EntryLong, SomeMerge, Lone, SomeMet, Entered};

use crate::Span;
use ty::{CLOSE, Merge, Side};

// The values of a name that both maps have, and where their answer goes: behind what is kept with that name (None: over).
#[derive(Clone, Copy)]
pub struct Values {
    pub first: Span,
    pub second: Span,
    pub kept: Option<usize>,
    pub at: usize,
}

// How long the entry at `at` is: its name and its type.
fn entry_len(s: &[u8], at: usize) -> usize
    requires { SomeEntry s.now at }
    ensures { EntryLong s.now at result }
{
    ty::type_end(s, text::field_end(s, at) + 1) - at
}

// Keeps the entries that one map has alone, up to a common name or the end of both.
pub fn keep_lone(s: &mut [u8], start: Merge, to: usize) -> Merge
    requires { SomeMerge s.old start to }
    ensures { Lone s.old s.new start to result }
{
    let mut m = start;
    // (The slice is written in each turn: no iterator can hold it.)
    while let Some(side) = ty::next_name(s, m.p, m.q) {
        if side == Side::Both {
            return m;
        }
        let k = entry_len(s, ty::taken(m, side));
        m = ty::take(s, m, side, k, to);
    }
    m
}

// Keeps the next common name, and finds its two values; None at the end of both.
pub fn next_values(work: &mut [u8], m: Merge, mark: usize) -> Option<Values>
    requires { SomeMet work.old m mark }
    ensures { Entered work.old work.new m mark result }
{
    let p = m.p;
    if work[p] == CLOSE {
        return None;
    }
    let k = ty::name_len(work, p);
    let kept = ty::keep(work, p, k, mark, m.n);
    let v = p + k;
    let w = m.q + k;
    Some(Values {
        first: Span {
            from: v,
            to: ty::type_end(work, v),
        },
        second: Span {
            from: w,
            to: ty::type_end(work, w),
        },
        kept,
        at: mark + kept.unwrap_or(0),
    })
}
