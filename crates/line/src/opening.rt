// A line that is passed over: its word and where the next line starts, with nothing read of its fields.
ghost use Rattle.std.specs.Prelude.{◌≤◌, ◌<◌, length, IfSome};
ghost use Rattle.line.specs.Opening.{OpensAs, BehindAs};

use crate::line::read_line;
use crate::quick::lead_of;
use crate::words::{Word, word_of};
use text::{COMMA, LINE_END};

// A line's word, if it has one, and a place in that line from which its end can be looked for.
#[derive(Clone, Copy)]
pub struct Opening {
    pub word: Option<Word>,
    pub from: usize,
}

// The word that stands at `at` with a comma or an LF behind it: all of it was seen.
fn opening_seen(sheet: &[u8], at: usize) -> Option<Opening>
    requires { at ≤ length sheet.now }
    ensures { IfSome result (λ r. OpensAs sheet.now at r) }
{
    let lead = lead_of(sheet, at)?;
    let word = word_of(lead.code)?;
    let from = lead.end;
    match sheet[from] {
        COMMA | LINE_END => Some(Opening {
            word: Some(word),
            from,
        }),
        _ => None,
    }
}

// The word of the line at `at`, whatever is wrong with its fields.
pub fn opening_of(sheet: &[u8], at: usize) -> Opening
    requires { at ≤ length sheet.now }
    ensures { OpensAs sheet.now at result }
{
    match opening_seen(sheet, at) {
        Some(opening) => opening,
        None => match read_line(sheet, at) {
            Ok(head) => Opening {
                word: Some(head.word),
                from: at,
            },
            Err(bad) => Opening {
                word: bad.word,
                from: at,
            },
        },
    }
}

// Where the line starts that stands behind the line of which `from` is a place.
pub fn line_behind(sheet: &[u8], from: usize) -> usize
    requires { from ≤ length sheet.now }
    ensures { BehindAs sheet.now from result }
{
    text::line_end(sheet, from) + 1
}
