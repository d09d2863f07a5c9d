// One field of a line, by its shape.
ghost use Rattle.std.specs.Prelude.{◌≡◌, ◌<◌, get_or};
ghost use Rattle.semantics.specs.Bytes.{decimal, unhex};
ghost use Rattle.semantics.specs.Sheet.{number, name_v, is_dash, within, named, lettered, signed_of, float_of, bound_of, optional, alias};
ghost use Rattle.line.specs.declared.shapes.Shape.TheVariants.{Variable, Optional};
ghost use Rattle.line.specs.Words.{field_of, under_of};
ghost use Rattle.line.specs.Line.{flag_at, count_at};
ghost use Rattle.line.specs.Fields.{decimal_of, val_of, said_of, value_at, negative_of, positive_of, pushed, stored_in, seen_name, most_fields, nothing_yet, number_at};

use crate::kinds::VarKind;
use crate::rows::Under;
use crate::shapes::Shape;
use semantics::{BOUND_LIMIT, Refusal, SIGNED_SHIFT, VARIABLE_LIMIT};

// The digits of a float; the greatest signed number; how many fields a line has at most.
pub const FLOAT_DIGITS: usize = 16;

pub const MOST_SIGNED: u64 = SIGNED_SHIFT - 1;

pub const MOST_FIELDS: usize = 7;

pub const DASH: u8 = b'-';

// A variable's number.
#[derive(Clone, Copy, PartialEq, Eq)]
pub struct VarId(pub u32);

pub fn is_dash(text: &[u8]) -> bool
    ensures { result ≡ is_dash text.now }
{
    text::same(text, b"-")
}

fn decimal(text: &[u8]) -> Result<u64, Refusal>
    ensures { result ≡ decimal_of (decimal text.now) }
{
    Ok(text::decimal(text)?)
}

// A decimal of at least `least` and at most `most`.
fn ranged(text: &[u8], least: u64, most: u64) -> Result<u64, Refusal>
    ensures { result ≡ val_of (within least most (decimal text.now) number) }
{
    let n = decimal(text)?;
    if n < least || n > most {
        return Err(Refusal::OutOfRange);
    }
    Ok(n)
}

// A variable, or none, which says 0: the definitions number an absent variable so too (`variable_of`), and no one asks which it was.
fn optional_value(text: &[u8]) -> Result<u64, Refusal>
    ensures { result ≡ val_of (value_at optional 0 text.now) }
{
    if is_dash(text) {
        return Ok(0);
    }
    ranged(text, 0, VARIABLE_LIMIT)
}

// A name, which is to say `n`.
fn name_value(text: &[u8], n: u64) -> Result<u64, Refusal>
    ensures { result ≡ said_of (named (unhex text.now) name_v) n }
{
    text::check_name(text)?;
    Ok(n)
}

// A name, which says 1, or none, which says 0: the line's number by the definitions, by which what hangs below is counted.
fn alias_value(text: &[u8]) -> Result<u64, Refusal>
    ensures { result ≡ val_of (value_at alias 0 text.now) }
{
    if is_dash(text) {
        return Ok(0);
    }
    name_value(text, 1)
}

// A bound, one more than it is, and 0 for `-`: the number by the definitions (`bound_of`). With `l` 0 there is only `-`.
fn bound_value(text: &[u8], l: u64) -> Result<u64, Refusal>
    ensures { result ≡ val_of (bound_of l text.now) }
{
    if is_dash(text) {
        return Ok(0);
    }
    if l == 0 {
        return Err(Refusal::BadlyWritten);
    }
    let n = decimal(text)?;
    Ok(n.saturating_add(1))
}

// The letter of a binding.
#[tactic(auto, unfolding(semantics::specs::Sheet::lettered))]
fn letter_value(text: &[u8]) -> Result<u64, Refusal>
    ensures { result ≡ val_of (lettered text.now) }
{
    match text {
        [letter] => {
            let kind = VarKind::try_from(*letter)?;
            Ok(u64::from(kind))
        }
        _ => Err(Refusal::BadlyWritten),
    }
}

// A number below 0, without its sign.
fn negative_value(text: &[u8]) -> Result<u64, Refusal>
    ensures { result ≡ val_of (negative_of (decimal text.now)) }
{
    let n = ranged(text, 0, SIGNED_SHIFT)?;
    if n == 0 {
        return Err(Refusal::BadlyWritten);
    }
    Ok(SIGNED_SHIFT - n)
}

// A number of at least 0 with a sign's room.
fn positive_value(text: &[u8]) -> Result<u64, Refusal>
    ensures { result ≡ val_of (positive_of (decimal text.now)) }
{
    let n = ranged(text, 0, MOST_SIGNED)?;
    Ok(SIGNED_SHIFT + n)
}

fn signed_value(text: &[u8]) -> Result<u64, Refusal>
    ensures { result ≡ val_of (signed_of text.now) }
{
    match text {
        [] => Err(Refusal::BadlyWritten),
        [DASH, digits @ ..] => negative_value(digits),
        digits => positive_value(digits),
    }
}

// The digits of a float.
fn float_value(text: &[u8]) -> Result<u64, Refusal>
    ensures { result ≡ val_of (float_of (unhex text.now)) }
{
    if text.len() != FLOAT_DIGITS || !text::all_hex(text) {
        return Err(Refusal::BadlyWritten);
    }
    Ok(0)
}

// The field of a shape, where the line's second number is `l`.
#[tactic(auto, unfolding(crate::specs::Fields::value_at))]
pub fn read_value(text: &[u8], shape: Shape, l: u64) -> Result<u64, Refusal>
    ensures { result ≡ val_of (value_at (field_of shape) l text.now) }
{
    match shape {
        Shape::Range(least, most) => ranged(text, least, most),
        Shape::Variable => ranged(text, 0, VARIABLE_LIMIT),
        Shape::Optional => optional_value(text),
        Shape::Name => name_value(text, 0),
        Shape::Alias => alias_value(text),
        Shape::Bound => bound_value(text, l),
        Shape::Letter => letter_value(text),
        Shape::Signed => signed_value(text),
        Shape::Float => float_value(text),
    }
}

// What a line's fields say so far: the variable; the numbers in order, and how many there are; where the name stands. The numbers have
// fixed memory and a count, since nothing is on the heap. What no field says is 0, as in the definitions (`variable_of`, `num`): which
// fields there are is settled by the word's row, so that an `Option` would be opened where there is nothing to ask.
#[derive(Drop)]
pub struct Fields {
    pub var: VarId,
    pub nums: [u64; MOST_FIELDS],
    pub put: usize,
    pub name: usize,
    pub stop: usize,
}

// What hangs below a line goes by two of its numbers: the flag number, and the count; 0 where the line has none.
#[derive(Clone, Copy)]
pub struct Hung {
    pub flag: u64,
    pub count: u64,
}

impl Fields {
    // Nothing yet.
    pub fn none() -> Fields
        ensures { result ≡ nothing_yet }
    {
        Fields {
            var: VarId(0),
            nums: [0; MOST_FIELDS],
            put: 0,
            name: 0,
            stop: 0,
        }
    }

    // The number at an index, 0 where there is none.
    #[inline(always)]
    pub fn number(&self, at: u8) -> u64
        ensures { result ≡ get_or self.now.nums at 0 }
    {
        let i = usize::from(at);
        if i < MOST_FIELDS { self.nums[i] } else { 0 }
    }

    // What the numbers say of the lines that hang below.
    #[inline(always)]
    pub fn hung(&self, under: Under) -> Hung
        ensures { (result.flag ≡ number_at self.now.nums (flag_at (under_of under))) × (result.count ≡ number_at self.now.nums (count_at (under_of under))) }
    {
        match under {
            Under::Nothing | Under::Two | Under::One(_) => Hung { flag: 0, count: 0 },
            Under::Bounds => Hung {
                flag: self.number(0),
                count: 0,
            },
            Under::Arms => Hung {
                flag: self.number(0),
                count: self.number(1),
            },
            Under::Times(count, _) | Under::OneTimes(count, _) => Hung {
                flag: 0,
                count: self.number(count),
            },
            Under::TimesThen(count, _, flag) => Hung {
                flag: self.number(flag),
                count: self.number(count),
            },
            Under::Around(_, flag) | Under::OneThen(flag) => Hung {
                flag: self.number(flag),
                count: 0,
            },
        }
    }

    fn push(&mut self, n: u64)
        requires { self.old.put < most_fields }
        ensures { self.new ≡ pushed self.old n }
    {
        let put = self.put;
        self.nums[put] = n;
        self.put = put + 1;
    }

    fn name_at(&mut self, from: usize, to: usize)
        ensures { self.new ≡ seen_name self.old from to }
    {
        self.name = from;
        self.stop = to;
    }

    // The field of a shape that stands from `from` to `to` and says `n`, after the fields before it.
    #[tactic(auto, unfolding(crate::specs::Fields::stored_in))]
    pub fn store(&mut self, shape: Shape, from: usize, to: usize, n: u64)
        requires { (self.old.put < most_fields) × (shape ≡ Variable → n < 4294967296) × (shape ≡ Optional → n < 4294967296) }
        ensures { self.new ≡ stored_in (field_of shape) self.old from to n }
    {
        match shape {
            // The number of a variable, which fits.
            Shape::Variable | Shape::Optional => self.var = VarId(n as u32),
            Shape::Name | Shape::Float => self.name_at(from, to),
            Shape::Alias => {
                self.push(n);
                if n == 1 {
                    self.name_at(from, to);
                }
            }
            _ => self.push(n),
        }
    }
}
