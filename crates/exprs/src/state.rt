// What an expression keeps of its children, at the front of its part of the work area (specs/State.antt), and how it ends.
ghost use Rattle.std.specs.Prelude.{◌≡◌, false};
ghost use Rattle.semantics.specs.Bytes.{Bytes};
ghost use Rattle.semantics.specs.Ty.{Ty};
ghost use Rattle.walk_run.specs.Run.{Kept, keep_first, empty, kept, both};
ghost use Rattle.exprs.specs.State.{StAs, ChildAt, FirstForm, FirstKept};
ghost use Rattle.exprs.specs.Rules.{TwoKept};

// The kept text is `len` long up to where the next child's type goes, and `second` behind that; `over` says that a CASE is too large. Which
// construct it is, the line's rule says (`Rule`): an enum here would say it again, and each function would open what its rule has chosen. A
// child's type goes to `len` whatever is kept, to 0 where nothing is or a CASE is too large.
#[derive(Drop)]
pub struct Accumulator {
    pub len: usize,
    pub second: usize,
    pub over: bool,
}

pub fn state(len: usize, second: usize) -> Accumulator
    ensures { (result.len ≡ len) × (result.second ≡ second) × (result.over ≡ false) }
{
    Accumulator {
        len,
        second,
        over: false,
    }
}

// Nothing, before the first child.
#[tactic(auto, unfolding(crate::specs::State::text_of, crate::specs::State::place, crate::specs::State::behind, crate::specs::State::full))]
pub fn start_empty() -> Accumulator
    ensures { (s : Bytes) → StAs empty s result }
{
    state(0, 0)
}

// How long the first child's type is that is kept, if there is one.
pub fn first_kept(st: Accumulator) -> Option<usize>
    ensures { FirstKept st.len result }
{
    (st.len > 0).then_some(st.len)
}

// The first child's type stays.
pub fn keep_first(st: Accumulator, n: usize) -> Accumulator
    ensures { (s : Bytes) (k : Kept) (t : Ty) → FirstForm k → ChildAt k t s st n → StAs (keep_first k t) s result }
{
    if st.len > 0 {
        return st;
    }
    state(n, 0)
}

// The second child's type behind the first.
fn keep_second(st: Accumulator, n: usize) -> Accumulator
    ensures { (s : Bytes) (u t : Ty) → ChildAt (kept u) t s st n → StAs (both u t) s result }
{
    state(st.len, n)
}

// The first two.
pub fn keep_two(st: Accumulator, n: usize) -> Accumulator
    ensures { TwoKept st n result }
{
    if st.len > 0 {
        return keep_second(st, n);
    }
    keep_first(st, n)
}
