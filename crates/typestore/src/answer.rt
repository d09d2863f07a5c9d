// A call on a store and the line that says what came of it.
ghost use Rattle.std.specs.Prelude.{◌≡◌, ◌+◌, ◌≤◌, ◌<◌, ◌^◌, length};
ghost use Rattle.report.specs.Report.{Appends, NumbersLine};
ghost use Rattle.semantics.specs.Refusals.{number_of};
ghost use Rattle.stores.specs.Catalogue.{Ask, entering, releasing, looking_up};
ghost use Rattle.typestore.specs.Answers.{line_text, Refuses, Answers};

use crate::list::live_line;
use semantics::{Refusal, Refused};
use writer::Writer;

// What was printed of a call: why it was refused, if it was, and the length of the text.
#[derive(Clone, Copy)]
pub struct Said {
    pub refusal: Option<Refusal>,
    pub length: usize,
}

// The line of a refusal. (Apart from the calls: whatever is called beside a `Writer` is looked at for divisions, RULES 10.1.)
pub fn say_refused(out: &mut [u8], refused: Refused) -> Said
    ensures { Refuses refused out.old out.new result }
{
    let mut writer = Writer::new(out, 0);
    report::refused_line(&mut writer, u64::from(refused.why), refused.place);
    Said {
        refusal: Some(refused.why),
        length: writer.fill,
    }
}

// The line of a call that answers two numbers. It stands apart from the calls, so that all that prints a number can be looked at for
// divisions (RULES 10.1).
fn numbers_line(out: &mut [u8], head: &[u8], first: u64, second: u64) -> usize
    requires { length head.now + 42 < 2 ^ 64 }
    ensures { NumbersLine head.now first second out.old out.new 0 result }
{
    let mut writer = Writer::new(out, 0);
    report::numbers_line(&mut writer, head, first, second);
    writer.fill
}

// The line of a type that was looked up, apart from the call as `numbers_line` is.
fn shown_line(out: &mut [u8], number: u64, uses: u64, line: &[u8]) -> usize
    requires { length line.now + 48 < 2 ^ 64 }
    ensures line { Appends (line_text number uses line.now) out.old out.new 0 result }
    ensures short { result ≤ length line.now + 48 }
{
    let mut writer = Writer::new(out, 0);
    live_line(&mut writer, number, uses, line);
    writer.fill
}

// Enters a type.
pub fn enter(store: &mut [u8], line: &[u8], out: &mut [u8]) -> Said
    ensures { Answers (entering line.now) store.old store.new out.old out.new result }
{
    match catalogue::enter(store, line) {
        Ok(entered) => {
            let number = u64::from(entered.number);
            let uses = u64::from(entered.uses);
            Said {
                refusal: None,
                length: numbers_line(out, b"entered,", number, uses),
            }
        }
        Err(refused) => say_refused(out, refused),
    }
}

// Releases a use of a type.
pub fn release(store: &mut [u8], number: u64, out: &mut [u8]) -> Said
    ensures { Answers (releasing number) store.old store.new out.old out.new result }
{
    match catalogue::release(store, number) {
        Ok(uses) => Said {
            refusal: None,
            length: numbers_line(out, b"released,", number, u64::from(uses)),
        },
        Err(refused) => say_refused(out, refused),
    }
}

// Looks a number up.
pub fn show(store: &[u8], number: u64, out: &mut [u8]) -> Said
    ensures { Answers (looking_up number) store.now store.now out.old out.new result }
{
    match catalogue::look_up(store, number) {
        Ok(found) => {
            let uses = u64::from(found.uses);
            Said {
                refusal: None,
                length: shown_line(out, number, uses, found.line),
            }
        }
        Err(refused) => say_refused(out, refused),
    }
}
