// Fields of a line that is known to be fine, read again: nothing is tested that the first reading has settled.
ghost use Rattle.std.specs.Prelude.{◌≡◌, [], ◌∷◌, ℕ, length};
ghost use Rattle.semantics.specs.Sheet.{number, lettered};
ghost use Rattle.line.specs.declared.shapes.Shape.TheVariants.{Range, Optional, Alias, Signed};
ghost use Rattle.line.specs.Kinds.{kind_no};
ghost use Rattle.line.specs.Known.{DigitsAt, DigitsAs, HighAt, PieceFine, BindingAt, BoundAs};
ghost use Rattle.line.specs.Quick.{GotAs};

use crate::field::{DASH, VarId};
use crate::in_place::{Got, letter_at, other_at};
use crate::kinds::VarKind;
use crate::shapes::Shape;
use semantics::SIGNED_SHIFT;

// The number whose digits stand from `at` up to the first byte below them. A `for` to the end of the sheet tests each byte's place: with
// it here and `position` below, lines read again took 10 to 35 % more instructions.
fn known_digits(sheet: &[u8], at: usize) -> Got
    requires { DigitsAt sheet.now at }
    ensures { DigitsAs sheet.now at result }
{
    let mut n: u64 = 0;
    let mut end = at;
    while sheet[end] >= b'0' {
        n = n * 10 + u64::from(sheet[end] - b'0');
        end += 1;
    }
    Got { end, n }
}

// Where the piece at `at` ends, no byte of which is below 45: comma and LF are. No place is tested, for the reason above.
fn known_end(sheet: &[u8], at: usize) -> usize
    requires { HighAt sheet.now at }
    ensures { (d : HighAt sheet.now at) → result ≡ d.end }
{
    let mut end = at;
    while sheet[end] >= DASH {
        end += 1;
    }
    end
}

// A number of a range.
fn known_number(sheet: &[u8], at: usize, least: u64, most: u64, l: u64) -> Got
    requires { PieceFine sheet.now at (Range least most) l }
    ensures { GotAs sheet.now at (Range least most) l (Some result) }
{
    known_digits(sheet, at)
}

// A variable where there may be none.
fn known_optional(sheet: &[u8], at: usize, l: u64) -> Got
    requires { PieceFine sheet.now at Optional l }
    ensures { GotAs sheet.now at Optional l (Some result) }
{
    if sheet[at] == DASH {
        return Got { end: at + 1, n: 0 };
    }
    known_digits(sheet, at)
}

// A name where there may be none.
fn known_alias(sheet: &[u8], at: usize, l: u64) -> Got
    requires { PieceFine sheet.now at Alias l }
    ensures { GotAs sheet.now at Alias l (Some result) }
{
    if sheet[at] == DASH {
        return Got { end: at + 1, n: 0 };
    }
    Got {
        end: known_end(sheet, at),
        n: 1,
    }
}

// A signed number, shifted so that the least is 0.
fn known_signed(sheet: &[u8], at: usize, l: u64) -> Got
    requires { PieceFine sheet.now at Signed l }
    ensures { GotAs sheet.now at Signed l (Some result) }
{
    if sheet[at] == DASH {
        let got = known_digits(sheet, at + 1);
        return Got {
            end: got.end,
            n: SIGNED_SHIFT - got.n,
        };
    }
    let got = known_digits(sheet, at);
    Got {
        end: got.end,
        n: SIGNED_SHIFT + got.n,
    }
}

// The field of a shape at `at`, where the line's second number is `l`.
pub fn known_field(sheet: &[u8], at: usize, shape: Shape, l: u64) -> Option<Got>
    requires { PieceFine sheet.now at shape l }
    ensures { GotAs sheet.now at shape l result }
{
    match shape {
        Shape::Range(least, most) => Some(known_number(sheet, at, least, most, l)),
        Shape::Variable => Some(known_digits(sheet, at)),
        Shape::Optional => Some(known_optional(sheet, at, l)),
        Shape::Name => Some(Got {
            end: known_end(sheet, at),
            n: 0,
        }),
        Shape::Float => Some(Got {
            end: known_end(sheet, at),
            n: 0,
        }),
        Shape::Alias => Some(known_alias(sheet, at, l)),
        Shape::Letter => letter_at(sheet, at),
        Shape::Signed => Some(known_signed(sheet, at, l)),
        Shape::Bound => other_at(sheet, at, shape, l),
    }
}

// The variable of a binding, and where its digits end.
#[derive(Clone, Copy)]
pub struct Bound {
    pub var: VarId,
    pub end: usize,
}

// The binding at `at`: `b`, a comma, the digits, a comma, the kind's letter, LF.
pub fn bound_at(sheet: &[u8], at: usize) -> Bound
    requires { BindingAt sheet.now at }
    ensures { (b : BindingAt sheet.now at) → BoundAs sheet.now b.head b.next result }
{
    let got = known_digits(sheet, at + 2);
    // The number of a variable, which fits.
    Bound {
        var: VarId(got.n as u32),
        end: got.end,
    }
}

// The kind that a binding's letter says.
pub fn kind_of(letter: u8) -> VarKind
    ensures { (n : ℕ) → lettered (letter ∷ []) ≡ number n → kind_no result ≡ n }
{
    VarKind::try_from(letter).unwrap_or(VarKind::Value)
}
