// Replays the stored calls of harness/vectors/stores.txt from standard input, and writes one line of counts.
#![tactic(auto)]

ghost use Rattle.std.specs.Prelude.{◌≡◌, length};
ghost use Rattle.semantics.specs.Bytes.{Bytes};
ghost use Rattle.stores.specs.Catalogue.{store_call, entering, releasing, looking_up};
ghost use Rattle.catalogue.specs.Stands.{entered_by, released_by, looked_as};
ghost use Rattle.replaying.specs.Judged.{Decides, Judges};
ghost use Rattle.replay_store.specs.Agrees.{kept_of, padded, Agrees};

use catalogue::Entered;
use replaying::{Answer, Cases, Verdict, judged, replay_input};
use semantics::Refused;
use std::io;

// Bytes of input, and one more.
const ROOM: usize = 983040;

// The longest store that is lent.
const STORE_ROOM: usize = 65537;

// A call; of a look-up also the line that it must find.
#[derive(Clone, Copy)]
enum Call<'a> {
    Enter(&'a [u8]),
    Release(u64),
    LookUp(u64, &'a [u8]),
}

// What a case says of its call: the answer, and the front of the store that it leaves, or the line that a look-up must find.
#[derive(Clone, Copy)]
struct Want<'a> {
    answer: Answer,
    text: &'a [u8],
}

fn of_entered(outcome: Result<Entered, Refused>) -> Answer
    ensures { (s : Bytes) → kept_of result s ≡ entered_by outcome s }
{
    match outcome {
        Ok(entered) => Answer::accepted(u64::from(entered.number), u64::from(entered.uses)),
        Err(refused) => Answer::from(refused),
    }
}

fn of_released(outcome: Result<u32, Refused>) -> Answer
    ensures { (s : Bytes) → kept_of result s ≡ released_by outcome s }
{
    Answer::of_one(outcome.map(u64::from))
}

// Whether the answer and every byte of the store are as the case says.
fn is_kept(answer: Answer, store: &[u8], want: Want) -> bool
    ensures { Decides result (kept_of answer store.now ≡ kept_of want.entry.answer want.entry.text.now) }
{
    answer == want.answer && text::same(store, want.text)
}

// Enters a text.
fn enter(store: &mut [u8], line: &[u8], want: Want) -> bool
    ensures { Decides result (store_call store.old (entering line.now) ≡ kept_of want.entry.answer want.entry.text.now) }
{
    let answer = of_entered(catalogue::enter(store, line));
    is_kept(answer, store, want)
}

// Releases a use.
fn release(store: &mut [u8], number: u64, want: Want) -> bool
    ensures { Decides result (store_call store.old (releasing number) ≡ kept_of want.entry.answer want.entry.text.now) }
{
    let answer = of_released(catalogue::release(store, number));
    is_kept(answer, store, want)
}

// Whether the numbers and the line that was found are as the case says.
fn is_found(answer: Answer, found: &[u8], want: Want) -> bool
    ensures { (s : Bytes) → Decides result (looked_as answer.number answer.first found.now s ≡ looked_as want.entry.answer.number want.entry.answer.first want.entry.text.now s) }
{
    answer.number == want.answer.number
        && answer.first == want.answer.first
        && text::same(found, want.text)
}

// Looks up; the store is only read.
fn look_up(store: &[u8], number: u64, want: Want) -> bool
    ensures { Decides result (store_call store.now (looking_up number) ≡ looked_as want.entry.answer.number want.entry.answer.first want.entry.text.now store.now) }
{
    match catalogue::look_up(store, number) {
        Ok(found) => {
            let answer = Answer::accepted(u64::from(found.uses), 0);
            is_found(answer, found.line, want)
        }
        Err(refused) => is_found(Answer::from(refused), b"", want),
    }
}

// Whether the call does as the case says.
fn agrees(call: Call, store: &mut [u8], want: Want) -> bool
    ensures { Decides result (Agrees call.entry store.old want.entry.answer want.entry.text.now) }
{
    match call {
        Call::Enter(line) => enter(store, line, want),
        Call::Release(number) => release(store, number, want),
        Call::LookUp(number, line) => {
            let found = Want {
                answer: want.answer,
                text: line,
            };
            look_up(store, number, found)
        }
    }
}

// Lends a store of `size` bytes, the front and then zeros.
fn lend(call: Call, front: &[u8], size: u64, want: Want) -> Verdict
    ensures { Judges result (Agrees call.entry (padded front.now size) want.entry.answer (padded want.entry.text.now size)) }
{
    let Ok(size) = usize::try_from(size) else {
        return Verdict::Skipped;
    };
    let mut store = [0u8; STORE_ROOM];
    let mut left = [0u8; STORE_ROOM];
    let after = want.text;
    if size > STORE_ROOM || front.len() > size || after.len() > size {
        return Verdict::Skipped;
    }
    text::append(&mut store, 0, front);
    text::append(&mut left, 0, after);
    let want = Want {
        answer: want.answer,
        text: &left[..size],
    };
    judged(agrees(call, &mut store[..size], want))
}

// A number of a header, in decimal.
fn number(digits: &[u8]) -> Option<u64> {
    text::decimal(digits).ok()
}

fn replay_enter(cases: &mut Cases) -> Option<Verdict> {
    let [refused, first, second, size, front, text, after] = cases.header::<7, _>(b'E', number)?;
    let front = cases.part(front)?;
    let text = cases.part(text)?;
    let after = cases.part(after)?;
    let answer = Answer {
        number: refused,
        first,
        second,
    };
    let want = Want {
        answer,
        text: after,
    };
    Some(lend(Call::Enter(text), front, size, want))
}

fn replay_release(cases: &mut Cases) -> Option<Verdict> {
    let [refused, first, size, released, front, after] = cases.header::<6, _>(b'R', number)?;
    let front = cases.part(front)?;
    let after = cases.part(after)?;
    let answer = Answer {
        number: refused,
        first,
        second: 0,
    };
    let want = Want {
        answer,
        text: after,
    };
    Some(lend(Call::Release(released), front, size, want))
}

fn replay_look_up(cases: &mut Cases) -> Option<Verdict> {
    let [refused, first, size, looked_up, front, line] = cases.header::<6, _>(b'L', number)?;
    let front = cases.part(front)?;
    let line = cases.part(line)?;
    let answer = Answer {
        number: refused,
        first,
        second: 0,
    };
    let want = Want { answer, text: b"" };
    Some(lend(Call::LookUp(looked_up, line), front, size, want))
}

fn replay_case(cases: &mut Cases) -> Option<Verdict> {
    match cases.rest.first()? {
        b'E' => replay_enter(cases),
        b'R' => replay_release(cases),
        _ => replay_look_up(cases),
    }
}

fn main(rt: HostRuntime) -> io::Result<()> {
    let mut room = [0u8; ROOM];
    replay_input(&rt, &mut room, replay_case)
}
