// Byte texts: compare, copy and rotate parts, append past the end, clear, decimal and hexadecimal digits, the ends of fields.
#![tactic(auto)]

mod decimals;
mod names;

ghost use Rattle.std.specs.Prelude.{◌≡◌, ◌⊎◌, map, ◌+◌, ◌*◌, ◌≤◌, ◌<◌, ◌^◌, length, get_or, set, replicate, SomeIff};
ghost use Rattle.std.proofs.lemmas.List.Edits.{sets};
ghost use Rattle.std.proofs.Math.Seq.{slice};
ghost use Rattle.semantics.specs.Codes.{comma, line_feed};
ghost use Rattle.semantics.specs.Bytes.{lex, same, unhex, decimal, digits};
ghost use Rattle.semantics.specs.Builtins.{lower, folded};
ghost use Rattle.text.specs.Text.{aside, order_of, is_hex, digit_of, is_found, dec_of, refusal_of, Ends, Starts, rotated};

pub use decimals::append_decimal;
pub use names::{NAME_DIGITS, check_name};
use semantics::Refusal;
use std::cmp::Ordering;

// What ends a field, and a line.
pub const COMMA: u8 = b',';

pub const LINE_END: u8 = 10;

// Whether the two texts are the same. Here `==` is tied to the definitions' own word for it.
pub fn same(a: &[u8], b: &[u8]) -> bool
    ensures { result ≡ same a.now b.now }
{
    a == b
}

// Byte order; a text comes after its own beginnings. Here `cmp` is tied to the definitions' order of texts.
pub fn compare(a: &[u8], b: &[u8]) -> Ordering
    ensures { order_of result ≡ lex a.now b.now }
{
    a.cmp(&b)
}

// Copies `len` bytes from `from` to `to`. Here `copy_within` is tied to the words that the definitions have for parts and for texts
// written over a list. (Places and a length, here and in the moves below, as `copy_within` takes them.)
pub fn copy_in(s: &mut [u8], from: usize, to: usize, len: usize)
    requires { (from + len ≤ length s.old) × (to + len ≤ length s.old) }
    ensures { s.new ≡ sets s.old to (slice from (from + len) s.old) }
{
    s.copy_within(from..from + len, to);
}

// Bytes that a move can keep aside: from there and back they are copied many at once.
const ASIDE: usize = 1024;

// `slide_up` of so few bytes that they can be kept aside.
fn slide_aside(s: &mut [u8], from: usize, to: usize, len: usize)
    requires { (from + len ≤ length s.old) × (to + len ≤ length s.old) × (len ≤ aside) }
    ensures { s.new ≡ sets s.old to (slice from (from + len) s.old) }
{
    let mut kept = [0u8; ASIDE];
    kept[..len].copy_from_slice(&s[from..from + len]);
    s[to..to + len].copy_from_slice(&kept[..len]);
}

// Copies `len` bytes up from `from` to `to`.
// (`copy_within` moves bytes that overlap one by one: it takes nine instructions a byte.)
pub fn slide_up(s: &mut [u8], from: usize, to: usize, len: usize)
    requires { (from ≤ to) × (to + len ≤ length s.old) }
    ensures { s.new ≡ sets s.old to (slice from (from + len) s.old) }
{
    if len <= ASIDE {
        slide_aside(s, from, to, len);
    } else {
        s.copy_within(from..from + len, to);
    }
}

// `rotate` with a first part of so few bytes that they can be kept aside.
fn rotate_aside(s: &mut [u8], a: usize, m: usize, e: usize)
    requires { (a ≤ m) × (m ≤ e) × (e ≤ length s.old) × (m ≤ a + aside) }
    ensures { s.new ≡ rotated a m e s.old }
{
    let len = m - a;
    let behind = a + (e - m);
    let mut kept = [0u8; ASIDE];
    kept[..len].copy_from_slice(&s[a..m]);
    s.copy_within(m..e, a);
    s[behind..e].copy_from_slice(&kept[..len]);
}

// Exchanges [a..m) and [m..e).
// (`rotate_left` alone takes twenty times as many instructions where few bytes change places.)
pub fn rotate(s: &mut [u8], a: usize, m: usize, e: usize)
    requires { (a ≤ m) × (m ≤ e) × (e ≤ length s.old) }
    ensures { s.new ≡ rotated a m e s.old }
{
    if m - a <= ASIDE {
        rotate_aside(s, a, m, e);
    } else {
        s[a..e].rotate_left(m - a);
    }
}

// Writes `b` at `fill` if that is inside `out`, and counts it either way. (An output and its fill, here and below, and no struct: the
// methods of `writer::Writer` are made of these, and with `fill` 0 they write the front of a work area, which has no fill.)
pub fn put(out: &mut [u8], fill: usize, b: u8) -> usize
    requires { fill + 1 < 2 ^ 64 }
    ensures { (result ≡ fill + 1) × (out.new ≡ set out.old fill b) }
{
    if fill < out.len() {
        out[fill] = b;
    }
    fill + 1
}

// Appends `t` at `fill`: what fits is written, the rest only counted.
pub fn append(out: &mut [u8], fill: usize, t: &[u8]) -> usize
    requires { fill + length t.now < 2 ^ 64 }
    ensures { (result ≡ fill + length t.now) × (out.new ≡ sets out.old fill t.now) }
{
    if fill < out.len() {
        let fits = t.len().min(out.len() - fill);
        out[fill..fill + fits].copy_from_slice(&t[..fits]);
    }
    fill + t.len()
}

// A digit, or a to f; `is_ascii_hexdigit` takes A to F too.
pub fn is_hex(b: u8) -> bool
    ensures { result ≡ is_hex b }
{
    matches!(b, b'0'..=b'9' | b'a'..=b'f')
}

// What `a` is above its value as a digit, ten.
const BEFORE_SMALL_A: u8 = 87;

// The value of a hexadecimal digit, and 0 for any other byte.
#[tactic(auto, unfolding(crate::specs::Text::digit_of))]
pub fn hex_value(b: u8) -> u8
    ensures { result ≡ digit_of b }
{
    match b {
        b'0'..=b'9' => b - b'0',
        b'a'..=b'f' => b - BEFORE_SMALL_A,
        _ => 0,
    }
}

// The byte whose two digits stand at `at`.
pub fn hex_byte(hex: &[u8], at: usize) -> u8
    requires { at + 1 < length hex.now }
    ensures { result ≡ digit_of (get_or hex.now at 0) * 16 + digit_of (get_or hex.now (at + 1) 0) }
{
    hex_value(hex[at]) * 16 + hex_value(hex[at + 1])
}

// Whether a name in hexadecimal is the plain `name`, ignoring ASCII case.
pub fn same_hex_fold(hex: &[u8], name: &[u8]) -> bool
    ensures { result ≡ same (folded (map digit_of hex.now)) (map lower name.now) }
{
    if hex.len() / 2 != name.len() {
        return false;
    }
    // (With `all` the check leaves it open that its answer is that of the two texts; of the loop each step is one lemma.)
    for (i, b) in name.iter().enumerate() {
        if hex_byte(hex, i * 2).to_ascii_lowercase() != b.to_ascii_lowercase() {
            return false;
        }
    }
    true
}

// Whether every byte is a hexadecimal digit.
pub fn all_hex(t: &[u8]) -> bool
    ensures { result ≡ is_found (unhex t.now) }
{
    t.iter().all(|b| is_hex(*b))
}

// Why a text is no decimal number of 64 bits: it is none at all, or a greater one.
#[derive(Clone, Copy, Debug, PartialEq, Eq)]
pub enum DecimalError {
    Bad,
    Over,
}

impl From<DecimalError> for Refusal {
    ghost from_gives = { λ why r. r ≡ refusal_of why };

    fn from(why: DecimalError) -> Refusal {
        match why {
            DecimalError::Bad => Refusal::BadlyWritten,
            DecimalError::Over => Refusal::OutOfRange,
        }
    }
}

// One digit more, if 64 bits hold it.
fn grow(n: u64, digit: u8) -> Option<u64>
    ensures { SomeIff result (n * 10 + digit < 2 ^ 64) (n * 10 + digit) }
{
    n.checked_mul(10)?.checked_add(u64::from(digit))
}

// A text of digits, leading zeros and all.
fn number(t: &[u8]) -> Result<u64, DecimalError>
    ensures { result ≡ dec_of (digits 0 t.now) }
{
    if !t.iter().all(|c| c.is_ascii_digit()) {
        return Err(DecimalError::Bad);
    }
    let mut n = 0;
    for c in t {
        n = grow(n, *c - b'0').ok_or(DecimalError::Over)?;
    }
    Ok(n)
}

// A decimal number without leading zeros.
pub fn decimal(t: &[u8]) -> Result<u64, DecimalError>
    ensures { result ≡ dec_of (decimal t.now) }
{
    match t {
        [] => Err(DecimalError::Bad),
        [_] => number(t),
        [b'0', ..] => Err(DecimalError::Bad),
        _ => number(t),
    }
}

// Where the piece at `at` ends: the first `b` from there on, or the end of the slice. (A text and a place, here and below: the answer is a
// place in the same text.)
// (The kit's `memchr` takes three times as many instructions at fields of two bytes.)
pub fn seek(s: &[u8], at: usize, b: u8) -> usize
    requires { at ≤ length s.now }
    ensures { Ends b s.now at result }
{
    match s[at..].iter().position(|x| *x == b) {
        Some(i) => at + i,
        None => s.len(),
    }
}

// Where the piece starts that holds the byte at `at`, not before `from`: behind the last `b` before that byte. Inlined, since it is a step
// of searches in other crates.
#[inline(always)]
pub fn piece_start(s: &[u8], from: usize, at: usize, b: u8) -> usize
    requires { (from ≤ at) × (at ≤ length s.now) }
    ensures { Starts b s.now from at result }
{
    match s[from..at].iter().rposition(|x| *x == b) {
        Some(i) => from + i + 1,
        None => from,
    }
}

// Where the field at `at` ends: its comma, or the end of the slice.
pub fn field_end(s: &[u8], at: usize) -> usize
    requires { at ≤ length s.now }
    ensures { Ends comma s.now at result }
{
    seek(s, at, COMMA)
}

// Where the line at `at` ends: its LF, or the end of the slice.
pub fn line_end(s: &[u8], at: usize) -> usize
    requires { at ≤ length s.now }
    ensures { Ends line_feed s.now at result }
{
    seek(s, at, LINE_END)
}
