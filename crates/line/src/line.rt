// One line of a sheet under a cursor.
ghost use Rattle.std.specs.Prelude.{◌≡◌, ◌==◌, ◌+◌, ◌≤◌, ◌<◌, length, drop, map, count_by};
ghost use Rattle.semantics.specs.Codes.{line_feed, comma};
ghost use Rattle.semantics.specs.Bytes.{split};
ghost use Rattle.semantics.specs.Sheet.{Word as Spoken, words, fill, bare};
ghost use Rattle.line.specs.Words.{field_of, under_of};
ghost use Rattle.line.specs.Rows.{CodeAs, FoundAs, code_from, word_at};
ghost use Rattle.line.specs.Fields.{most_fields};
ghost use Rattle.line.specs.Line.{pieces, FilledAs, seen_as, line_says, SaysAs, ReadAs, next_of};
ghost use Rattle.line.specs.Known.{FineAt, KnownAs};

use crate::field::{Fields, VarId, read_value};
use crate::quick::{BYTE, FULL, quick};
use crate::rows::{Under, row_of};
use crate::shapes::Shape;
use crate::words::{Word, word_of};
use semantics::Refusal;
use text::COMMA;

// A word's letters behind a 1, a byte each; none for more than five.
pub fn word_code(letters: &[u8]) -> Option<u64>
    ensures { CodeAs result (code_from 1 letters.now) }
{
    let mut code: u64 = 1;
    for b in letters {
        if code >= FULL {
            return None;
        }
        code = code * BYTE + u64::from(*b);
    }
    Some(code)
}

// The word that is spelled so.
fn word_spelled(letters: &[u8]) -> Option<Word>
    ensures { FoundAs result (word_at (code_from 1 letters.now) words) }
{
    word_of(word_code(letters)?)
}

// How many commas stand in a line.
fn commas(line: &[u8]) -> usize
    ensures { result ≡ count_by (λ b. b == comma) line.now }
{
    line.iter().filter(|b| **b == COMMA).count()
}

// The fields from `from` on, left to right, up to the first that is wrong.
fn read_fields(line: &[u8], from: usize, shapes: &[Shape]) -> Result<Fields, Refusal>
    requires { (length (pieces line.now from) ≡ length shapes.now) × (length shapes.now ≤ most_fields) }
    ensures { (v : Spoken) → FilledAs line.now (fill (bare v) (map field_of shapes.now) (pieces line.now from)) result }
{
    let mut fields = Fields::none();
    let mut at = from;
    for shape in shapes {
        let end = text::field_end(line, at);
        let second = fields.number(1);
        let n = read_value(&line[at..end], *shape, second)?;
        fields.store(*shape, at, end, n);
        at = end + 1;
    }
    Ok(fields)
}

// A line's number, from 1.
#[derive(Clone, Copy, PartialEq, Eq)]
pub struct HirId(pub u32);

// A line: its word, where the next line starts, and what the fields say. A name stands from `name` to `stop` in hexadecimal digits. What
// the word's row has no field for is 0, as in the definitions, where a flag number is a number too, whose two bits are its rest and its
// half (`low`, `high`). The word and the variable stand side by side, so that there is less to copy: with `next` between them, the check
// of a mixed sheet took 1 % more instructions.
#[derive(Clone, Copy)]
pub struct Head {
    pub word: Word,
    pub var: VarId,
    pub next: usize,
    pub num: u64,
    pub flag: u64,
    pub count: u64,
    pub name: usize,
    pub stop: usize,
}

// A line that is no good: its word, if it is whole and has one; what is wrong with it; where the next line starts.
#[derive(Clone, Copy)]
pub struct BadLine {
    pub word: Option<Word>,
    pub why: Refusal,
    pub next: usize,
}

pub fn head_of(word: Word, under: Under, next: usize, fields: &Fields) -> Head
    ensures { result ≡ seen_as word (under_of under) next fields.now }
{
    let hung = fields.hung(under);
    Head {
        word,
        next,
        var: fields.var,
        num: fields.number(0),
        flag: hung.flag,
        count: hung.count,
        name: fields.name,
        stop: fields.stop,
    }
}

// The line that stands from `at` to the end of `line`; the next one starts at `next`.
fn read_words(line: &[u8], at: usize, next: usize) -> Result<Head, BadLine>
    requires { at ≤ length line.now }
    ensures { (next_of result ≡ next) × SaysAs line.now result (line_says (drop at line.now)) }
{
    let end = text::field_end(line, at);
    let Some(word) = word_spelled(&line[at..end]) else {
        return Err(BadLine {
            word: None,
            why: Refusal::BadlyWritten,
            next,
        });
    };
    let row = row_of(word);
    if commas(&line[at..]) != row.fields.len() {
        return Err(BadLine {
            word: Some(word),
            why: Refusal::BadlyWritten,
            next,
        });
    }
    match read_fields(line, end + 1, row.fields) {
        Ok(fields) => Ok(head_of(word, row.under, next, &fields)),
        Err(why) => Err(BadLine {
            word: Some(word),
            why,
            next,
        }),
    }
}

// The line at `at`, whatever is wrong with it. Inlined, so that a good line is written at once where it is wanted: with a call here, whose
// answer and the good line shared a place, the check of a mixed sheet took 7 % more instructions.
#[inline(always)]
fn read_any(sheet: &[u8], at: usize) -> Result<Head, BadLine>
    requires { at ≤ length sheet.now }
    ensures { ReadAs sheet.now at result (split line_feed (drop at sheet.now)) }
{
    let end = text::line_end(sheet, at);
    if end >= sheet.len() {
        return Err(BadLine {
            word: None,
            why: Refusal::BadlyWritten,
            next: at,
        });
    }
    read_words(&sheet[..end], at, end + 1)
}

// The line at `at`.
pub fn read_line(sheet: &[u8], at: usize) -> Result<Head, BadLine>
    requires { at ≤ length sheet.now }
    ensures { ReadAs sheet.now at result (split line_feed (drop at sheet.now)) }
{
    if let Some(head) = quick::<false>(sheet, at) {
        return Ok(head);
    }
    read_any(sheet, at)
}

// The line at `at`, which is known to be fine.
pub fn known_line(sheet: &[u8], at: usize) -> Head
    requires { (at ≤ length sheet.now) × FineAt sheet.now at }
    ensures read { ReadAs sheet.now at (Ok result) (split line_feed (drop at sheet.now)) }
    ensures known { KnownAs sheet.now at result }
{
    match quick::<true>(sheet, at) {
        Some(head) => head,
        None => read_any(sheet, at).unwrap(),
    }
}
