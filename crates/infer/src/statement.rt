// The clauses of a sheet: every expression line that is met is a top expression, every other line is stepped over by its word and its
// LF alone (`infer_types`).
ghost use Rattle.std.specs.Prelude.{◌≡◌, ◌+◌, ◌<◌, ◌≤◌, length};
ghost use Rattle.line.specs.Opening.{BehindAs};
ghost use Rattle.infer.specs.Statement.{StatementAsk, Reported};

use crate::step::Sheet;
use crate::walk::{TooLarge, infer_line};
use hir::Next;
use line::{Place, known_line, line_behind, opening_of, place_of};
use report::Report;
use writer::Writer;

// The cursor behind the line of which `from` is a place. (Each line takes one of the numbers, so that there is one more is asked of whoever
// steps on, and no invariant.)
fn skipped(sheet: &[u8], c: Next, from: usize) -> Next
    requires { (c.line.0 < 4294967295) × (from ≤ length sheet.now) }
    ensures { BehindAs sheet.now from result.at × (result.line.0 ≡ c.line.0 + 1) }
{
    let line = hir::next_line(c.line);
    Next {
        at: line_behind(sheet, from),
        line,
    }
}

// The clauses from the cursor on, with so many levels for each top expression, told in a report with nothing on it; its length.
fn check_clauses(
    sheet: Sheet<'_>,
    cur: Next,
    levels: usize,
    work: &mut [u8],
    report: &mut Report<'_, '_>,
) -> Result<usize, TooLarge>
    requires asks { StatementAsk levels sheet.text.now sheet.binds cur work.old }
    requires empty { (report.old.writer.now.fill ≡ 0) × (report.old.faults ≡ 0) }
    ensures keeps { report.new.writer.ghost_name ≡ report.old.writer.ghost_name }
    ensures keeps_out { report.new.writer.now.out.ghost_name ≡ report.old.writer.now.out.ghost_name }
    ensures told { Reported levels sheet.entry.text.now sheet.entry.binds cur work.old work.new report.old.writer.now.out.now report.new.writer.now.out.now result }
{
    let mut c = cur;
    // Counts the T lines, which are written here alone (faults are told in many places, so the report counts them): no index.
    let mut types: u64 = 0;
    loop {
        let p = c.at;
        let o = opening_of(sheet.text, p);
        let Some(word) = o.word else { unreachable!() };
        match place_of(word) {
            Place::End => {
                report.end_line(types);
                return Ok(report.writer.fill);
            }
            Place::Expression => {
                let k = known_line(sheet.text, p);
                let typed = infer_line(sheet, k, c, levels, work, report)?;
                let len = typed.len;
                report.type_line(&work[..len]);
                c = typed.cur;
                types += 1;
            }
            _ => c = skipped(sheet.text, c, o.from),
        }
    }
}

// The report's length, of the clauses from the cursor on, with so many levels for each top expression.
pub fn check_statement(
    sheet: Sheet<'_>,
    cur: Next,
    levels: usize,
    work: &mut [u8],
    out: &mut [u8],
) -> Result<usize, TooLarge>
    requires { StatementAsk levels sheet.text.now sheet.binds cur work.old }
    ensures { Reported levels sheet.entry.text.now sheet.entry.binds cur work.old work.new out.old out.new result }
{
    let mut writer = Writer::new(out, 0);
    let mut report = Report {
        writer: &mut writer,
        faults: 0,
    };
    check_clauses(sheet, cur, levels, work, &mut report)
}
