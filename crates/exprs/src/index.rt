// Index and slice: of the first child's type, which is kept, the element or the list itself. (That it
// stands at the front, `SomeOne`, is asked at both ends, as in `operators`.)
ghost use Rattle.std.specs.Prelude.{◌≡◌, length};
ghost use Rattle.semantics.specs.Ty.{Ty, t_any, base};
ghost use Rattle.semantics.specs.Builtins.{element_of, list_or};
ghost use Rattle.ty.specs.Parts.{TypeAt};
ghost use Rattle.walk_run.specs.Run.{kept};
ghost use Rattle.exprs.specs.End.{KeptAt, SomeOne};

use crate::front::put_letter;
use crate::state::Accumulator;
use builtins::ReturnShape;
use ty::{ANY, LIST};

// The element of a list, else Any: what `head` and `last` return.
pub fn end_index(st: Accumulator, work: &mut [u8]) -> usize
    requires { SomeOne work.old st }
    ensures { (length work.new ≡ length work.old) × ((t : Ty) → KeptAt (kept t) work.old st → TypeAt work.new 0 result (element_of t)) }
{
    ReturnShape::ListElement.resolve(work, Some(st.len))
}

// The list itself, else Any, where `tail` has a list of Any.
pub fn end_slice(st: Accumulator, work: &mut [u8]) -> usize
    requires { SomeOne work.old st }
    ensures { (length work.new ≡ length work.old) × ((t : Ty) → KeptAt (kept t) work.old st → TypeAt work.new 0 result (list_or (base t_any) t)) }
{
    if work[0] == LIST {
        return st.len;
    }
    put_letter(work, ANY)
}
