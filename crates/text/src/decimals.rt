// Decimal digits without a division (RULES 10.1): each digit by subtracting a power of ten from a table.
ghost use Rattle.std.specs.Prelude.{◌≡◌, ◌+◌, ◌*◌, ◌/◌, ◌%◌, ◌≤◌, ◌<◌, ◌^◌, length};
ghost use Rattle.std.proofs.lemmas.List.Edits.{sets};
ghost use Rattle.semantics.specs.Bytes.{shown};
ghost use Rattle.text.specs.Text.{Behind};

use crate::put;

// How many powers of ten 64 bits hold.
const POWERS: usize = 20;

// The powers of ten: 10 ^ i at i.
const POWER: [u64; POWERS] = [
    1,
    10,
    100,
    1000,
    10000,
    100000,
    1000000,
    10000000,
    100000000,
    1000000000,
    10000000000,
    100000000000,
    1000000000000,
    10000000000000,
    100000000000000,
    1000000000000000,
    10000000000000000,
    100000000000000000,
    1000000000000000000,
    10000000000000000000,
];

// A power of ten of the table.
fn power(i: usize) -> u64
    requires { i < 20 }
    ensures { result ≡ 10 ^ i }
{
    POWER[i]
}

// How many digits the greatest number of 64 bits has behind its first.
const MOST_BEHIND: usize = 19;

// How many digits n has behind its first.
fn digits_behind(n: u64) -> usize
    ensures { Behind n result }
{
    for i in 0..MOST_BEHIND {
        if n < power(i + 1) {
            return i;
        }
    }
    MOST_BEHIND
}

// A digit, and what it leaves.
#[derive(Drop)]
struct Digit {
    digit: u8,
    rest: u64,
}

// How often p, a power of ten, goes into m: by subtraction, where `/` and `%` would divide.
fn digit_of(m: u64, p: u64) -> Digit
    requires { (0 < p) × (m < p * 10) }
    ensures { (result.digit ≡ m / p) × (result.rest ≡ m % p) × (result.digit < 10) }
{
    let mut digit: u8 = 0;
    let mut rest = m;
    while rest >= p {
        rest -= p;
        digit += 1;
    }
    Digit { digit, rest }
}

// The decimal digits of n, appended from the first.
pub fn append_decimal(out: &mut [u8], fill: usize, n: u64) -> usize
    requires { fill + 20 < 2 ^ 64 }
    ensures { (result ≡ fill + length (shown n)) × (out.new ≡ sets out.old fill (shown n)) × (result ≤ fill + 20) }
{
    let mut m = n;
    let mut at = fill;
    for i in (0..digits_behind(n)).rev() {
        let d = digit_of(m, power(i + 1));
        at = put(out, at, b'0' + d.digit);
        m = d.rest;
    }
    let last = digit_of(m, 1);
    put(out, at, b'0' + last.digit)
}
