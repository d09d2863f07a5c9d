// A list literal: `J,` and what its items so far unify to.
ghost use Rattle.std.specs.Prelude.{◌≡◌, [], ◌≤◌, length};
ghost use Rattle.std.proofs.Math.Option.{Option, none, some};
ghost use Rattle.semantics.specs.Limits.{type_limit};
ghost use Rattle.semantics.specs.Ty.{Ty, t_any, base};
ghost use Rattle.ty.specs.Parts.{TypeAt};
ghost use Rattle.walk_run.specs.Run.{items, last, told, end_list};
ghost use Rattle.exprs.specs.State.{StAs, Keeps, SomeList, ListKept, Headed, SomeItem, ItemKept};
ghost use Rattle.exprs.specs.End.{KeptAt, SomeItems};

use crate::front::{put_field, put_letter, put_pair};
use crate::state::{Accumulator, state};
use ty::{ANY, LIST};
use unify::{Span, UnifyError};

// `J,` for a list and for a comprehension.
pub fn start_list(work: &mut [u8]) -> Accumulator
    requires { type_limit ≤ length work.old }
    ensures { StAs (items none) work.new result × StAs (last none) work.new result × (length work.new ≡ length work.old) }
{
    state(put_letter(work, LIST), 0)
}

// A list of `len` bytes at the front, tested.
fn fitted(work: &[u8], len: usize) -> Option<Accumulator>
    requires { SomeList work.now len }
    ensures { ListKept work.now len result }
{
    ty::fits(&work[..len]).then_some(state(len, 0))
}

// `J,A,`: the items have no type in common.
fn any_items(work: &mut [u8]) -> Accumulator
    requires { Headed work.old }
    ensures { Keeps (some (items (some (base t_any)))) work.old work.new (Some result) }
{
    put_field(work, 2, ANY);
    state(4, 0)
}

// An item of a list, behind the running element.
pub fn list_item(st: Accumulator, work: &mut [u8], n: usize) -> Option<Accumulator>
    requires { SomeItem work.old st n }
    ensures { ItemKept work.old work.new st n result }
{
    let k = st.len;
    let e = k + n;
    // (`J,` alone: no item yet.)
    if k == 2 {
        return fitted(work, e);
    }
    match unify::unify(work, Span { from: 2, to: k }, Span { from: k, to: e }, e) {
        Ok(end) => {
            text::copy_in(work, e, 2, end - e);
            fitted(work, 2 + (end - e))
        }
        Err(UnifyError::Mismatch { .. }) => Some(any_items(work)),
        Err(UnifyError::TooLarge) => None,
    }
}

// With no item its element is Any.
pub fn end_list(st: Accumulator, work: &mut [u8]) -> usize
    requires { SomeItems work.old st }
    ensures { (length work.new ≡ length work.old) × ((e : Option Ty) → KeptAt (items e) work.old st → (t : Ty) → end_list (items e) ≡ told t [] → TypeAt work.new 0 result t) }
{
    // (`J,` alone.)
    if st.len == 2 {
        return put_pair(work, LIST, ANY);
    }
    st.len
}
