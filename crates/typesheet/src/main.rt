// Types the sheet on standard input: writes its report, or `refused,NUMBER,PLACE` and LF.
#![tactic(auto)]

ghost use Rattle.std.specs.Prelude.{◌≡◌, ◌≤◌, length, take};
ghost use Rattle.semantics.specs.Bytes.{text};
ghost use Rattle.semantics.specs.Calls.{sheet_text};
ghost use Rattle.semantics.specs.Refusals.{number_of};
ghost use Rattle.report.specs.Report.{NumbersLine};

use semantics::Refused;
use std::io;
use writer::Writer;

// One byte more than a sheet may have: a longer input fills it, and is refused.
const SHEET_ROOM: usize = 65536;

// A longer report is refused (RULES 7.9).
const REPORT_ROOM: usize = 65536;

// The line of a refusal, at the front of the output: at most 50 bytes. It stands apart from the typing, so that all that prints a number
// can be looked at for divisions (RULES 10.1).
fn say_refused(out: &mut [u8], refused: Refused) -> usize
    ensures { NumbersLine (text "refused,") (number_of refused.why) refused.place out.old out.new 0 result }
{
    let mut writer = Writer::new(out, 0);
    report::refused_line(&mut writer, u64::from(refused.why), refused.place);
    writer.fill
}

// What is printed of a sheet, at the front of the output: its length.
fn print_sheet(sheet: &[u8], out: &mut [u8]) -> usize
    requires { 64 ≤ length out.old }
    ensures { (result ≤ length out.old) × (take result out.new ≡ sheet_text (length out.old) sheet.now) }
{
    let mut work = [0u8; semantics::WORK_SIZE];
    match typing::infer_types(sheet, &mut work, out) {
        Ok(len) => len,
        Err(refused) => say_refused(out, refused),
    }
}

fn main(rt: HostRuntime) -> io::Result<()> {
    let mut sheet = [0u8; SHEET_ROOM];
    let read = input::read_full(&mut rt.stdin(), &mut sheet)?;
    let mut out = [0u8; REPORT_ROOM];
    let n = print_sheet(&sheet[..read], &mut out);
    rt.write_all(&out[..n])
}
