// The call that unifies two type lines.
#![tactic(auto)]

ghost use Rattle.std.specs.Prelude.{◌≡◌, length};
ghost use Rattle.semantics.specs.Calls.{unify_call};
ghost use Rattle.unifying.specs.Call.{settled};
ghost use Rattle.unifying.specs.Told.{refused_by, SomeAnswer, Tells, Settles};

use semantics::{Refusal, Refused, WORK_SIZE};
use unify::{Span, UnifyError};

// Why there is no type: two lines, of so many bytes, do not unify, and stand in the output one behind the other; or the call refuses.
#[derive(Clone, Copy, Debug, PartialEq, Eq)]
pub enum NotUnified {
    Mismatch { expected: usize, actual: usize },
    Refused(Refused),
}

fn refused(why: Refusal, place: u64) -> NotUnified
    ensures { result ≡ refused_by why place }
{
    NotUnified::Refused(Refused { why, place })
}

// The answer to the output.
fn deliver(
    work: &[u8],
    mark: usize,
    answer: Result<usize, UnifyError>,
    out: &mut [u8],
) -> Result<usize, NotUnified>
    requires { SomeAnswer work.now mark answer out.old }
    ensures { Tells work.now mark answer out.old out.new result }
{
    match answer {
        Ok(end) => Ok(text::append(out, 0, &work[mark..end])),
        Err(UnifyError::Mismatch { expected, actual }) => {
            let left = expected.from;
            let left_end = expected.to;
            let n = text::append(out, 0, &work[left..left_end]);
            let right = actual.from;
            let right_end = actual.to;
            let m = text::append(out, n, &work[right..right_end]);
            Err(NotUnified::Mismatch {
                expected: n,
                actual: m - n,
            })
        }
        Err(UnifyError::TooLarge) => Err(refused(Refusal::TypeTooLarge, 0)),
    }
}

// The two lines at the front of the work area, unified. The output is still to be cleared where the call refuses.
fn solve(
    a: &[u8],
    b: &[u8],
    work: &mut [u8; WORK_SIZE],
    out: &mut [u8],
) -> Result<usize, NotUnified>
    ensures { Settles (unify_call a.now b.now work.old out.old)
        work.old out.old out.new result }
{
    if out.len() < semantics::UNIFY_OUTPUT {
        return Err(refused(Refusal::OutputTooShort, 0));
    }
    if !ty::is_type_line(a) {
        return Err(refused(Refusal::NoTypeLine, 1));
    }
    if !ty::is_type_line(b) {
        return Err(refused(Refusal::NoTypeLine, 2));
    }
    let m = text::append(work, 0, a);
    let mark = text::append(work, m, b);
    let left = Span { from: 0, to: m };
    let right = Span { from: m, to: mark };
    let answer = unify::unify(work, left, right, mark);
    deliver(work, mark, answer, out)
}

// The whole call: the answer, and what both buffers have afterwards. The returned numbers are the length of the type in the output, or the two
// lengths, or the place.
pub fn unify_types(a: &[u8], b: &[u8], work: &mut [u8], out: &mut [u8]) -> Result<usize, NotUnified>
    ensures { settled result work.new out.new ≡ unify_call a.now b.now work.old out.old }
{
    let Some(area) = work.as_mut_array::<WORK_SIZE>() else {
        return Err(refused(Refusal::WrongSize, 0));
    };
    let answer = solve(a, b, area, out);
    work.fill(0);
    // Each arm is written out: behind an `if let` it is not known that the other answers are no refusals.
    match answer {
        Ok(_) => answer,
        Err(NotUnified::Mismatch { .. }) => answer,
        Err(NotUnified::Refused(_)) => {
            out.fill(0);
            answer
        }
    }
}
