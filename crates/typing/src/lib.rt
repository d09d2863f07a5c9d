// The calls that take a sheet: one types it, one only validates it.
#![tactic(auto)]

mod checking;

ghost use Rattle.std.specs.Prelude.{◌≡◌, ◌≤◌, length};
ghost use Rattle.semantics.specs.Limits.{sheet_limit};
ghost use Rattle.semantics.specs.Calls.{sheet_call};
ghost use Rattle.typing.specs.Typed.{Types, settled_as};

pub use checking::check_sheet;
use hir::Next;
use infer::{Env, Sheet};
use semantics::{Refusal, Refused, WORK_SIZE};

// The whole sheet read, and then its clauses typed.
fn type_sheet(sheet: &[u8], work: &mut [u8; WORK_SIZE], out: &mut [u8]) -> Result<usize, Refused>
    requires { length sheet.now ≤ sheet_limit }
    ensures { Types (sheet_call sheet.now work.old out.old) work.old out.old out.new result }
{
    let o = hir::check_sheet(sheet, semantics::DEPTH_LIMIT)?;
    let read = Sheet {
        text: sheet,
        binds: Env {
            from: o.from,
            to: o.to,
        },
    };
    let cur = Next {
        at: o.to,
        line: o.line,
    };
    let len = infer::check_statement(read, cur, semantics::DEPTH_LIMIT, work, out)?;
    if len > out.len() {
        return Err(Refusal::OutputTooShort.into());
    }
    Ok(len)
}

// The whole call: the report's length or the refusal with its place, and what both buffers have afterwards.
pub fn infer_types(sheet: &[u8], work: &mut [u8], out: &mut [u8]) -> Result<usize, Refused>
    ensures { settled_as result work.new out.new ≡ sheet_call sheet.now work.old out.old }
{
    if sheet.len() > semantics::SHEET_LIMIT {
        return Err(Refusal::SheetTooLong.into());
    }
    let Some(area) = work.as_mut_array::<WORK_SIZE>() else {
        return Err(Refusal::WrongSize.into());
    };
    let typed = type_sheet(sheet, area, out);
    work.fill(0);
    if typed.is_err() {
        out.fill(0);
    }
    typed
}
