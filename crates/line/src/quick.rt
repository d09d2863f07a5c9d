// A line read at once, where nothing is wrong with it: the word while its end is looked for, each field where it stands.
ghost use Rattle.std.specs.Prelude.{◌≡◌, true, ◌≤◌, ◌<◌, length};
ghost use Rattle.line.specs.Quick.{LeadAs, GotAs, QuickAs, QuickBehind};
ghost use Rattle.line.specs.Known.{FineAt, FineBehind, PieceFine};

use crate::field::Fields;
use crate::in_place::{Got, field_at};
use crate::known::known_field;
use crate::line::{Head, head_of, word_code};
use crate::rows::row_of;
use crate::shapes::Shape;
use crate::words::{Word, word_of};
use text::{COMMA, LINE_END};

// A word's letters, a byte each, behind a 1: what a byte counts, what two count, where three letters start, and where no further letter
// fits.
pub const BYTE: u64 = 256;

const TWO_BYTES: u64 = 65536;

const THREE_LETTERS: u64 = 16777216;

pub const FULL: u64 = 1099511627776;

// A word's code and where it ends, at the first byte that is no small letter.
#[derive(Clone, Copy)]
pub struct Lead {
    pub code: u64,
    pub end: usize,
}

// Most words have three letters or four: those are read without a loop. With `lead_long` alone the lines of a mixed sheet took 24 % more
// instructions.
#[inline(always)]
pub fn lead_of(sheet: &[u8], at: usize) -> Option<Lead>
    requires { at ≤ length sheet.now }
    ensures { LeadAs sheet.now at result }
{
    if sheet.len() - at < 5 {
        return lead_long(sheet, at);
    }
    let a = sheet[at];
    let b = sheet[at + 1];
    let c = sheet[at + 2];
    if a.min(b).min(c) < b'a' {
        return lead_long(sheet, at);
    }
    let code = THREE_LETTERS + u64::from(a) * TWO_BYTES + u64::from(b) * BYTE + u64::from(c);
    let d = sheet[at + 3];
    if d < b'a' {
        return Some(Lead { code, end: at + 3 });
    }
    if sheet[at + 4] < b'a' {
        return Some(Lead {
            code: code * BYTE + u64::from(d),
            end: at + 4,
        });
    }
    lead_long(sheet, at)
}

// The longest word's letters and the byte behind them.
const LEAD_ROOM: usize = 6;

// The same for a word of any length. (No further than a word can go: a line that is refused may be one long run of letters.)
fn lead_long(sheet: &[u8], at: usize) -> Option<Lead>
    requires { at ≤ length sheet.now }
    ensures { LeadAs sheet.now at result }
{
    let near = sheet.len().min(at + LEAD_ROOM);
    let letters = sheet[at..near].iter().position(|b| *b < b'a')?;
    let end = at + letters;
    let code = word_code(&sheet[at..end])?;
    Some(Lead { code, end })
}

// The field of a shape at `at`, if nothing is wrong with it, where the line's second number is `l`. One that is known to be fine is
// read with fewer tests: read as any other, the lines of a mixed sheet took 22 % more instructions, those of long names three times as many.
fn quick_field<const FINE: bool>(sheet: &[u8], at: usize, shape: Shape, l: u64) -> Option<Got>
    requires { (at ≤ length sheet.now) × (FINE ≡ true → PieceFine sheet.now at shape l) }
    ensures { GotAs sheet.now at shape l result }
{
    if FINE {
        known_field(sheet, at, shape, l)
    } else {
        field_at(sheet, at, shape, l)
    }
}

// The line whose word ends at `end`, if nothing is wrong with its fields.
fn quick_fields<const FINE: bool>(sheet: &[u8], end: usize, word: Word) -> Option<Head>
    requires { (end < length sheet.now) × (FINE ≡ true → FineBehind sheet.now end word) }
    ensures { QuickBehind sheet.now end word result }
{
    let row = row_of(word);
    let shapes = row.fields;
    let mut fields = Fields::none();
    let mut at = end;
    for shape in shapes {
        if sheet[at] != COMMA {
            return None;
        }
        let second = fields.number(1);
        let got = quick_field::<FINE>(sheet, at + 1, *shape, second)?;
        fields.store(*shape, at + 1, got.end, got.n);
        at = got.end;
    }
    if sheet[at] != LINE_END {
        return None;
    }
    Some(head_of(word, row.under, at + 1, &fields))
}

// The line at `at`, if nothing is wrong with it.
pub fn quick<const FINE: bool>(sheet: &[u8], at: usize) -> Option<Head>
    requires { (at ≤ length sheet.now) × (FINE ≡ true → FineAt sheet.now at) }
    ensures { QuickAs sheet.now at result }
{
    let lead = lead_of(sheet, at)?;
    let word = word_of(lead.code)?;
    quick_fields::<FINE>(sheet, lead.end, word)
}
