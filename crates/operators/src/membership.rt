// IN (`check_in_list`): the operand is [0..len), what should be a list the `second` bytes behind it. (`SomeTwo`: as
// in operators.rt.)
ghost use Rattle.std.specs.Prelude.{◌≡◌, get_or};
ghost use Rattle.semantics.specs.Ty.{Ty};
ghost use Rattle.walk_run.specs.Run.{end_in};
ghost use Rattle.exprs.specs.End.{Ends, Countable, TwoAt, SomeTwo};
ghost use Rattle.operators.specs.Helpers.{Parted, LetsIn};

use exprs::{Accumulator, is_bool};
use report::{Report, TypeFault};
use ty::{ANY, LIST, NULL, UNKNOWN};
use unify::{Span, UnifyError};

// A mismatch is a fault where neither side is open.
fn mismatch_in(a: u8, b: u8, report: &mut Report<'_, '_>)
    requires { Countable report.old }
    ensures keeps { report.new.writer.ghost_name ≡ report.old.writer.ghost_name }
    ensures keeps_out { report.new.writer.now.out.ghost_name ≡ report.old.writer.now.out.ghost_name }
    ensures adds { Parted a b report.old report.new }
{
    if report::is_open(a) || report::is_open(b) {
        return;
    }
    report.fault_in(a, b);
}

// With a list on the right: the operand against its element.
fn in_list(st: Accumulator, work: &mut [u8], report: &mut Report<'_, '_>) -> Option<usize>
    requires { SomeTwo work.old st × Countable report.old × (get_or work.old st.len 0 ≡ 74) }
    ensures keeps { report.new.writer.ghost_name ≡ report.old.writer.ghost_name }
    ensures keeps_out { report.new.writer.now.out.ghost_name ≡ report.old.writer.now.out.ghost_name }
    ensures ends { (a b : Ty) → TwoAt a b work.old st → Ends (end_in a b) work.old work.new report.old report.new result }
{
    let k = st.len;
    let e = k + st.second;
    let a = work[0];
    let element = ty::element(&work[k..e]);
    let b = element[0];
    match unify::unify(
        work,
        Span { from: 0, to: k },
        Span { from: k + 2, to: e },
        e,
    ) {
        Ok(_) => Some(is_bool(work)),
        Err(UnifyError::Mismatch { .. }) => {
            mismatch_in(a, b, report);
            Some(is_bool(work))
        }
        Err(UnifyError::TooLarge) => None,
    }
}

// Whether what should be a list may be anything: Any, Null, Unknown.
fn lets_in(kind: u8) -> bool
    ensures { LetsIn kind result }
{
    matches!(kind, ANY | NULL | UNKNOWN)
}

pub fn check_in_list(st: Accumulator, work: &mut [u8], report: &mut Report<'_, '_>) -> Option<usize>
    requires { SomeTwo work.old st × Countable report.old }
    ensures keeps { report.new.writer.ghost_name ≡ report.old.writer.ghost_name }
    ensures keeps_out { report.new.writer.now.out.ghost_name ≡ report.old.writer.now.out.ghost_name }
    ensures ends { (a b : Ty) → TwoAt a b work.old st → Ends (end_in a b) work.old work.new report.old report.new result }
{
    let k = st.len;
    let b = work[k];
    if b == LIST {
        return in_list(st, work, report);
    }
    if !lets_in(b) {
        report.fault(TypeFault::E2013, b);
    }
    Some(is_bool(work))
}
