// Unary and binary operators (`infer_unaryop`, `infer_binop`). One operand is kept, or two. That they stand at the front (`SomeOne`,
// `SomeTwo`) is asked at each end: a struct of both that has it as its invariant would be made for that one call.
ghost use Rattle.std.specs.Prelude.{◌≡◌, ◌≤◌, length};
ghost use Rattle.semantics.specs.Bytes.{Bytes};
ghost use Rattle.semantics.specs.Ty.{Ty};
ghost use Rattle.semantics.specs.Walk.{op, unary_type, unary_faults};
ghost use Rattle.semantics.specs.Walk.{comparison as comparison_op};
ghost use Rattle.ty.specs.Kind.{SomeKind};
ghost use Rattle.walk_run.specs.Run.{kept, told, end_op};
ghost use Rattle.exprs.specs.End.{Ends, Countable, KeptAt, TwoAt, SomeTwo, SomeOne};
ghost use Rattle.report.specs.declared.Report.{Report as Told};
ghost use Rattle.operators.specs.Helpers.{NumericKind, SomeKinds, Computed, IsUnary, op_of};

use crate::need::{Need, meets, require, require_both};
use exprs::{Accumulator, is_bool, put_letter, put_pair};
use report::Report;
use ty::{ANY, UNKNOWN};
use unify::{Span, UnifyError};

// The letter of the type that arithmetic goes on with: a numeric or open type itself, else Unknown.
fn numeric(kind: u8) -> u8
    requires { SomeKind kind }
    ensures { NumericKind kind result }
{
    if meets(Need::Number, kind) {
        kind
    } else {
        UNKNOWN
    }
}

#[derive(Clone, Copy, PartialEq, Eq)]
enum UnaryOp {
    Neg,
    Not,
}

// The operator of a line's number.
impl From<u64> for UnaryOp {
    ghost from_gives = { IsUnary };

    fn from(num: u64) -> UnaryOp {
        match num {
            0 => UnaryOp::Neg,
            _ => UnaryOp::Not,
        }
    }
}

// A unary operator.
pub fn infer_unaryop(
    num: u64,
    st: Accumulator,
    work: &mut [u8],
    report: &mut Report<'_, '_>,
) -> usize
    requires { SomeOne work.old st × Countable report.old }
    ensures keeps { report.new.writer.ghost_name ≡ report.old.writer.ghost_name }
    ensures keeps_out { report.new.writer.now.out.ghost_name ≡ report.old.writer.now.out.ghost_name }
    ensures ends { (t : Ty) → KeptAt (kept t) work.old st → Ends (told (unary_type num t) (unary_faults num t)) work.old work.new report.old report.new (Some result) }
{
    let a = work[0];
    match UnaryOp::from(num) {
        UnaryOp::Neg => {
            require(Need::Number, a, report);
            put_letter(work, numeric(a))
        }
        UnaryOp::Not => {
            require(Need::Bool, a, report);
            is_bool(work)
        }
    }
}

// Arithmetic over two operands' letters.
fn arithmetic(work: &mut [u8], a: u8, b: u8) -> Option<usize>
    requires { (8192 ≤ length work.old) × SomeKinds a b }
    ensures { Computed a b work.old work.new result }
{
    put_pair(work, numeric(a), numeric(b));
    match unify::unify(work, Span { from: 0, to: 2 }, Span { from: 2, to: 4 }, 4) {
        Ok(end) => {
            let n = end - 4;
            text::copy_in(work, 4, 0, n);
            Some(n)
        }
        Err(UnifyError::Mismatch { .. }) => Some(put_letter(work, UNKNOWN)),
        Err(UnifyError::TooLarge) => None,
    }
}

// A comparison: only whether the operands' unification is too large.
fn comparison(st: Accumulator, work: &mut [u8]) -> Option<usize>
    requires { SomeTwo work.old st }
    ensures { (a b : Ty) (r : Told) → TwoAt a b work.old st → Ends (end_op comparison_op a b) work.old work.new r r result }
{
    let k = st.len;
    let e = k + st.second;
    match unify::unify(work, Span { from: 0, to: k }, Span { from: k, to: e }, e) {
        Ok(_) => Some(is_bool(work)),
        Err(UnifyError::Mismatch { .. }) => Some(is_bool(work)),
        Err(UnifyError::TooLarge) => None,
    }
}

#[derive(Clone, Copy, PartialEq, Eq)]
enum OpKind {
    Arithmetic,
    Equality,
    Comparison,
    Boolean,
    Strings,
    Concatenation,
}

// The first operators of each kind but the first, in the order of the Rust's `BinOp` and of docs/RULES.md 3.4. A line says an operator by
// its number, which is read here alone: `OpKind::from` takes its range to its kind at once, where an enum of all twenty would be made of the
// number by twenty arms and taken to its kind by twenty more.
const EQ: u64 = 6;

const LT: u64 = 8;

const AND: u64 = 12;

const STARTS_WITH: u64 = 15;

const CONCAT: u64 = 19;

// The operator's kind.
impl From<u64> for OpKind {
    ghost from_gives = { λ num kind. op_of kind ≡ op num };

    fn from(num: u64) -> OpKind {
        match num {
            ..EQ => OpKind::Arithmetic,
            EQ..LT => OpKind::Equality,
            LT..AND => OpKind::Comparison,
            AND..STARTS_WITH => OpKind::Boolean,
            STARTS_WITH..CONCAT => OpKind::Strings,
            _ => OpKind::Concatenation,
        }
    }
}

// A binary operator over its operands' types, [0..len) and `second` bytes behind them.
pub fn infer_binop(
    num: u64,
    st: Accumulator,
    work: &mut [u8],
    report: &mut Report<'_, '_>,
) -> Option<usize>
    requires { SomeTwo work.old st × Countable report.old }
    ensures keeps { report.new.writer.ghost_name ≡ report.old.writer.ghost_name }
    ensures keeps_out { report.new.writer.now.out.ghost_name ≡ report.old.writer.now.out.ghost_name }
    ensures ends { (a b : Ty) → TwoAt a b work.old st → Ends (end_op (op num) a b) work.old work.new report.old report.new result }
{
    let k = st.len;
    let a = work[0];
    let b = work[k];
    match OpKind::from(num) {
        OpKind::Arithmetic => {
            require_both(Need::Number, a, b, report);
            arithmetic(work, a, b)
        }
        OpKind::Equality => Some(is_bool(work)),
        OpKind::Comparison => comparison(st, work),
        OpKind::Boolean => {
            require_both(Need::Bool, a, b, report);
            Some(is_bool(work))
        }
        OpKind::Strings => {
            require_both(Need::Text, a, b, report);
            Some(is_bool(work))
        }
        OpKind::Concatenation => Some(put_letter(work, ANY)),
    }
}
