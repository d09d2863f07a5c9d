// Replays the stored calls of harness/vectors, sheets, pairs and old type lines, from standard input, and writes one line of counts.
#![tactic(auto)]

ghost use Rattle.std.specs.Prelude.{◌≡◌, length, replicate};
ghost use Rattle.semantics.specs.Bytes.{Bytes};
ghost use Rattle.semantics.specs.Calls.{sheet_call, unify_call};
ghost use Rattle.old_lines.specs.Old.{regular_call};
ghost use Rattle.unifying.specs.Call.{settled};
ghost use Rattle.typing.specs.Typed.{settled_as};
ghost use Rattle.replaying.specs.Judged.{Decides, Judges};
ghost use Rattle.replay.specs.Stored.{filled, work_byte, out_byte, left_by, stored_by, Agrees};

use replaying::{Answer, Cases, Verdict, judged, replay_input};
use semantics::{Refusal, Refused};
use std::io;
use unifying::NotUnified;

// What the two buffers are filled with before a call: bytes that no text has.
const WORK_FILL: u8 = 170;

const OUT_FILL: u8 = 187;

// The longest of each that is lent.
const WORK_ROOM: usize = 65537;

const OUT_ROOM: usize = 65536;

// Bytes of input, and one more.
const ROOM: usize = 2097152;

// A call.
#[derive(Clone, Copy)]
enum Call<'a> {
    Sheet(&'a [u8]),
    Pair(&'a [u8], &'a [u8]),
    Old(&'a [u8]),
}

// What a case says of its call: the answer, and what stands at the front of the output.
#[derive(Clone, Copy)]
struct Want<'a> {
    answer: Answer,
    text: &'a [u8],
}

fn all_are(s: &[u8], b: u8) -> bool
    ensures { Decides result (s.now ≡ replicate (length s.now) b) }
{
    s.iter().all(|x| *x == b)
}

// Whether `s` is `t` and then `fill` to its end.
fn is_then(s: &[u8], t: &[u8], fill: u8) -> bool
    ensures { Decides result (s.now ≡ filled t.now (length s.now) fill) }
{
    match s.strip_prefix(t) {
        Some(rest) => all_are(rest, fill),
        None => false,
    }
}

// What the work area is filled with after an answer of this number, which is the case's own.
fn in_work(number: u64) -> u8
    ensures { result ≡ work_byte number }
{
    match number {
        1 | 2 => WORK_FILL,
        _ => 0,
    }
}

// The same of the output, behind what is written.
fn in_out(number: u64) -> u8
    ensures { result ≡ out_byte number }
{
    match number {
        3..=8 | 12 => 0,
        _ => OUT_FILL,
    }
}

// Whether both buffers hold what the number says.
fn is_left(number: u64, work: &[u8], out: &[u8], expected: &[u8]) -> bool
    ensures { Decides result ((work.now ≡ replicate (length work.now) (work_byte number))
        × (out.now ≡ filled expected.now (length out.now) (out_byte number))) }
{
    all_are(work, in_work(number)) && is_then(out, expected, in_out(number))
}

// Whether the answer and the buffers that a call left are as the case says.
fn is_stored(answer: Answer, work: &[u8], out: &[u8], want: Want) -> bool
    ensures { Decides result (left_by answer work.now out.now ≡ stored_by want.entry.answer (length work.now) (length out.now) want.entry.text.now) }
{
    answer == want.answer && is_left(want.answer.number, work, out, want.text)
}

// The answer of a call that tells a length. (Lengths and places are cast, since there is no `From` of a `usize` for `u64`.)
fn of_length(outcome: Result<usize, Refused>) -> Answer
    ensures { (work : Bytes) (out : Bytes) → left_by result work out ≡ settled_as outcome work out }
{
    Answer::of_one(outcome.map(|n| n as u64))
}

// The answer of a call that unifies.
fn of_unified(outcome: Result<usize, NotUnified>) -> Answer
    ensures { (work : Bytes) (out : Bytes) → left_by result work out ≡ settled outcome work out }
{
    match outcome {
        Ok(n) => Answer::accepted(n as u64, 0),
        Err(NotUnified::Mismatch { expected, actual }) => Answer {
            number: u64::from(Refusal::Mismatch),
            first: expected as u64,
            second: actual as u64,
        },
        Err(NotUnified::Refused(refused)) => Answer::from(refused),
    }
}

// Types a sheet.
fn infer(sheet: &[u8], work: &mut [u8], out: &mut [u8], want: Want) -> bool
    ensures { Decides result (sheet_call sheet.now work.old out.old
        ≡ stored_by want.entry.answer (length work.old) (length out.old) want.entry.text.now) }
{
    let answer = of_length(typing::infer_types(sheet, work, out));
    is_stored(answer, work, out, want)
}

// Unifies.
fn unify(a: &[u8], b: &[u8], work: &mut [u8], out: &mut [u8], want: Want) -> bool
    ensures { Decides result (unify_call a.now b.now work.old out.old
        ≡ stored_by want.entry.answer (length work.old) (length out.old) want.entry.text.now) }
{
    let answer = of_unified(unifying::unify_types(a, b, work, out));
    is_stored(answer, work, out, want)
}

// Makes an old type line regular.
fn regular(line: &[u8], work: &mut [u8], out: &mut [u8], want: Want) -> bool
    ensures { Decides result (regular_call line.now work.old out.old
        ≡ stored_by want.entry.answer (length work.old) (length out.old) want.entry.text.now) }
{
    let answer = of_length(old::regular_line(line, work, out));
    is_stored(answer, work, out, want)
}

// Whether the call does as the case says.
fn agrees(call: Call, work: &mut [u8], out: &mut [u8], want: Want) -> bool
    ensures { Decides result (Agrees call.entry work.old out.old want.entry.answer want.entry.text.now) }
{
    match call {
        Call::Sheet(sheet) => infer(sheet, work, out, want),
        Call::Pair(a, b) => unify(a, b, work, out, want),
        Call::Old(line) => regular(line, work, out, want),
    }
}

// Lends a work area of `w` bytes and an output of `o`, where there is room for them.
fn lend(call: Call, w: u64, o: u64, want: Want) -> Verdict
    ensures { Judges result (Agrees call.entry (replicate w 170) (replicate o 187) want.entry.answer want.entry.text.now) }
{
    let (Ok(w), Ok(o)) = (usize::try_from(w), usize::try_from(o)) else {
        return Verdict::Skipped;
    };
    let mut work = [WORK_FILL; WORK_ROOM];
    let mut out = [OUT_FILL; OUT_ROOM];
    if w > WORK_ROOM || o > OUT_ROOM {
        return Verdict::Skipped;
    }
    judged(agrees(call, &mut work[..w], &mut out[..o], want))
}

// What a number may be for one digit more to follow.
const MOST_BEFORE: u64 = 999999;

// A number of a header: digits, leading zeros and all, that say less than ten millions. (By hand: `text::decimal` refuses leading zeros, and
// knows no such limit.)
fn number(digits: &[u8]) -> Option<u64> {
    if digits.is_empty() {
        return None;
    }
    let mut number = 0;
    for digit in digits {
        if !digit.is_ascii_digit() || number > MOST_BEFORE {
            return None;
        }
        number = number * 10 + u64::from(*digit - b'0');
    }
    Some(number)
}

// The case of a call that is lent one text.
fn replay_text<'a, F: FnOnce(&'a [u8]) -> Call<'a>>(
    cases: &mut Cases<'a>,
    letter: u8,
    call: F,
) -> Option<Verdict>
    requires { F.IsAlwaysCallable call }
{
    let [refused, first, work, out, text, expected] = cases.header::<6, _>(letter, number)?;
    let text = cases.part(text)?;
    let expected = cases.part(expected)?;
    let answer = Answer {
        number: refused,
        first,
        second: 0,
    };
    let want = Want {
        answer,
        text: expected,
    };
    Some(lend(call(text), work, out, want))
}

fn replay_pair(cases: &mut Cases) -> Option<Verdict> {
    let [refused, first, second, work, out, a, b, expected] = cases.header::<8, _>(b'U', number)?;
    let a = cases.part(a)?;
    let b = cases.part(b)?;
    let expected = cases.part(expected)?;
    let answer = Answer {
        number: refused,
        first,
        second,
    };
    let want = Want {
        answer,
        text: expected,
    };
    Some(lend(Call::Pair(a, b), work, out, want))
}

fn replay_case(cases: &mut Cases) -> Option<Verdict> {
    match cases.rest.first()? {
        b'S' => replay_text(cases, b'S', Call::Sheet),
        b'O' => replay_text(cases, b'O', Call::Old),
        _ => replay_pair(cases),
    }
}

fn main(rt: HostRuntime) -> io::Result<()> {
    let mut room = [0u8; ROOM];
    replay_input(&rt, &mut room, replay_case)
}
