// Fields read where they stand, in a line whose end is not known yet: a field's end is found while it is read, where `read_value` takes a
// field that has been gone through for its end.
ghost use Rattle.std.specs.Prelude.{◌≡◌, ℕ, ◌≤◌, ◌<◌, length};
ghost use Rattle.line.specs.declared.shapes.Shape.TheVariants.{Range, Name, Letter, Signed, Float};
ghost use Rattle.line.specs.Quick.{DigitsTo, NumberAs, HexTo, PieceTo, GotAs, Dashed};

use crate::field::{DASH, FLOAT_DIGITS, MOST_SIGNED, read_value};
use crate::kinds::VarKind;
use crate::shapes::Shape;
use semantics::{SIGNED_SHIFT, VARIABLE_LIMIT};
use text::{COMMA, LINE_END, NAME_DIGITS};

// A number of which ten times, and a digit more, fit 64 bits.
const SAFE_TENTH: u64 = 1844674407370955160;

// A field read where it stands: where it ends, inside the slice, and its number, as `read_value` says it (of a name and a
// float 0, which `store` drops).
#[derive(Clone, Copy)]
pub struct Got {
    pub end: usize,
    pub n: u64,
}

// More digits, from `from` on, behind those from `at` on, which say `first`.
fn more_digits(sheet: &[u8], at: usize, from: usize, first: u64) -> Option<Got>
    requires { DigitsTo sheet.now at from first }
    ensures { NumberAs sheet.now at result }
{
    let mut n = first;
    for i in from..sheet.len() {
        let b = sheet[i];
        if b < b'0' {
            return Some(Got { end: i, n });
        }
        if b > b'9' || n > SAFE_TENTH {
            return None;
        }
        n = n * 10 + u64::from(b - b'0');
    }
    None
}

// The decimal number at `at`.
fn number_at(sheet: &[u8], at: usize) -> Option<Got>
    requires { at ≤ length sheet.now }
    ensures { NumberAs sheet.now at result }
{
    let end = at + 1;
    if end >= sheet.len() {
        return None;
    }
    let b = sheet[at];
    if !b.is_ascii_digit() {
        return None;
    }
    let n = u64::from(b - b'0');
    if sheet[end] < b'0' {
        return Some(Got { end, n });
    }
    if b == b'0' {
        return None;
    }
    more_digits(sheet, at, end, n)
}

// A number of at least `least` and at most `most`.
fn ranged_at(sheet: &[u8], at: usize, least: u64, most: u64) -> Option<Got>
    requires { at ≤ length sheet.now }
    ensures { (l : ℕ) → GotAs sheet.now at (Range least most) l result }
{
    let got = number_at(sheet, at)?;
    if got.n < least || got.n > most {
        return None;
    }
    Some(got)
}

// Where the hexadecimal digits from `at` on end. One test stands in the other: with a `match` of the two ranges, or a function that says
// whether a byte is a digit, the check of a sheet of long names took 47 % and 64 % more instructions.
fn hex_end(sheet: &[u8], at: usize) -> usize
    requires { at ≤ length sheet.now }
    ensures { HexTo sheet.now at result }
{
    for i in at..sheet.len() {
        let b = sheet[i];
        if b <= b'9' {
            if b < b'0' {
                return i;
            }
        } else if b < b'a' || b > b'f' {
            return i;
        }
    }
    sheet.len()
}

// A name.
fn name_at(sheet: &[u8], at: usize) -> Option<Got>
    requires { at ≤ length sheet.now }
    ensures { (l : ℕ) → GotAs sheet.now at Name l result }
{
    let end = hex_end(sheet, at);
    if end >= sheet.len() || (end - at) % 2 != 0 || end - at > NAME_DIGITS {
        return None;
    }
    Some(Got { end, n: 0 })
}

// The digits of a float.
fn float_at(sheet: &[u8], at: usize) -> Option<Got>
    requires { at ≤ length sheet.now }
    ensures { (l : ℕ) → GotAs sheet.now at Float l result }
{
    let end = hex_end(sheet, at);
    if end >= sheet.len() || end - at != FLOAT_DIGITS {
        return None;
    }
    Some(Got { end, n: 0 })
}

// Where the piece at `at` ends: the first comma or LF from there on, or the end of the slice.
fn piece_end(sheet: &[u8], at: usize) -> usize
    requires { at ≤ length sheet.now }
    ensures { PieceTo sheet.now at result }
{
    match sheet[at..]
        .iter()
        .position(|b| *b == COMMA || *b == LINE_END)
    {
        Some(length) => at + length,
        None => sheet.len(),
    }
}

// A field of any shape.
pub fn other_at(sheet: &[u8], at: usize, shape: Shape, l: u64) -> Option<Got>
    requires { at ≤ length sheet.now }
    ensures { GotAs sheet.now at shape l result }
{
    let end = piece_end(sheet, at);
    if end >= sheet.len() {
        return None;
    }
    let n = read_value(&sheet[at..end], shape, l).ok()?;
    Some(Got { end, n })
}

// The letter of a binding.
pub fn letter_at(sheet: &[u8], at: usize) -> Option<Got>
    requires { at ≤ length sheet.now }
    ensures { (l : ℕ) → GotAs sheet.now at Letter l result }
{
    let end = at + 1;
    if end >= sheet.len() {
        return None;
    }
    match VarKind::try_from(sheet[at]) {
        Ok(kind) => Some(Got {
            end,
            n: u64::from(kind),
        }),
        Err(_) => None,
    }
}

// A signed number, shifted so that the least is 0.
fn signed_at(sheet: &[u8], at: usize) -> Option<Got>
    requires { at ≤ length sheet.now }
    ensures { (l : ℕ) → GotAs sheet.now at Signed l result }
{
    if at >= sheet.len() {
        return None;
    }
    if sheet[at] == DASH {
        let got = ranged_at(sheet, at + 1, 0, SIGNED_SHIFT)?;
        if got.n == 0 {
            return None;
        }
        return Some(Got {
            end: got.end,
            n: SIGNED_SHIFT - got.n,
        });
    }
    let got = ranged_at(sheet, at, 0, MOST_SIGNED)?;
    Some(Got {
        end: got.end,
        n: SIGNED_SHIFT + got.n,
    })
}

// A field that may be `-`.
fn dash_or(sheet: &[u8], at: usize, shape: Shape, l: u64) -> Option<Got>
    requires { (at ≤ length sheet.now) × Dashed shape }
    ensures { GotAs sheet.now at shape l result }
{
    let end = at + 1;
    if end >= sheet.len() {
        return None;
    }
    if sheet[at] == DASH {
        return Some(Got { end, n: 0 });
    }
    match shape {
        Shape::Optional => ranged_at(sheet, at, 0, VARIABLE_LIMIT),
        _ => other_at(sheet, at, shape, l),
    }
}

// The field of a shape at `at`, where the line's second number is `l`.
pub fn field_at(sheet: &[u8], at: usize, shape: Shape, l: u64) -> Option<Got>
    requires { at ≤ length sheet.now }
    ensures { GotAs sheet.now at shape l result }
{
    match shape {
        Shape::Range(least, most) => ranged_at(sheet, at, least, most),
        Shape::Variable => ranged_at(sheet, at, 0, VARIABLE_LIMIT),
        Shape::Optional | Shape::Alias | Shape::Bound => dash_or(sheet, at, shape, l),
        Shape::Name => name_at(sheet, at),
        Shape::Letter => letter_at(sheet, at),
        Shape::Signed => signed_at(sheet, at),
        Shape::Float => float_at(sheet, at),
    }
}
