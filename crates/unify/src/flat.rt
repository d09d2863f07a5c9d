// Answers that need no inner one.
ghost use Rattle.unify_run.specs.Run.{nullable};
ghost use Rattle.unify.specs.Made.{SomeMade, Tested, SomeUnion, ClosedUnion};
ghost use Rattle.unify.specs.Flat.{SomeOperand, Copied, SomeTypes, NullAnswer, OneAnswer, SomeNodes, NodesAnswer};

use crate::{Span, UnifyError};
use ty::{CLOSE, UNION};

// The type [mark..end) as an answer, if it is not too large.
pub fn tested(work: &[u8], mark: usize, end: usize) -> Result<usize, UnifyError>
    requires { SomeMade work.now mark end }
    ensures { Tested work.now mark end result }
{
    if ty::fits(&work[mark..end]) {
        Ok(end)
    } else {
        Err(UnifyError::TooLarge)
    }
}

// An operand as the answer, which was tested before; where it ends.
pub fn copied(work: &mut [u8], a: Span, mark: usize) -> usize
    requires { SomeOperand work.old a mark }
    ensures { Copied work.old work.new a mark result }
{
    let n = a.to - a.from;
    text::copy_in(work, a.from, mark, n);
    mark + n
}

// The running union [mark..mark + n) as an answer.
pub fn closed(work: &mut [u8], mark: usize, n: usize) -> Result<usize, UnifyError>
    requires { SomeUnion work.old mark n }
    ensures { ClosedUnion work.old work.new mark n result }
{
    let k = ty::close_union(&mut work[mark..], n).ok_or(UnifyError::TooLarge)?;
    Ok(mark + k)
}

// These types and Null.
fn with_null(work: &mut [u8], types: Span, mark: usize) -> Result<usize, UnifyError>
    requires { SomeTypes work.old types mark }
    ensures { NullAnswer work.old work.new types mark result }
{
    let n = types.to - types.from;
    if n + 2 > semantics::TYPE_LIMIT {
        return Err(UnifyError::TooLarge);
    }
    text::copy_in(work, types.from, mark, n);
    text::append(work, mark + n, b"B,");
    let k = ty::add_members(&mut work[mark..], n, n + 2).ok_or(UnifyError::TooLarge)?;
    closed(work, mark, k)
}

// Null and another type: its members and Null.
pub fn unify_null(work: &mut [u8], t: Span, mark: usize) -> Result<usize, UnifyError>
    requires { SomeOperand work.old t mark }
    ensures { OneAnswer nullable work.old work.new t mark result }
{
    let from = t.from;
    if work[from] == UNION {
        with_null(work, t.members(), mark)
    } else {
        with_null(work, t, mark)
    }
}

// Two node types that are not equal.
pub fn unify_label_sets(work: &mut [u8], a: Span, b: Span, mark: usize) -> Result<usize, UnifyError>
    requires { SomeNodes work.old a b mark }
    ensures { NodesAnswer work.old work.new a b mark result }
{
    let left = a.from;
    let right = b.from;
    if work[left + 2] == CLOSE || work[right + 2] == CLOSE {
        return Ok(text::append(work, mark, b"L,!,"));
    }
    let k = ty::merge_labels(work, left, right, mark).ok_or(UnifyError::TooLarge)?;
    Ok(mark + k)
}
