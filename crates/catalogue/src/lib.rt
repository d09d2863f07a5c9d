// The type catalogue (RULES 10.4): enter, release and look up types in a lent store.
#![tactic(auto)]

mod find;
mod form;
mod layout;
mod number;
mod tally;

ghost use Rattle.std.specs.Prelude.{◌≡◌, ◌+◌, ◌≤◌, ◌<◌, length, IfOk};
ghost use Rattle.std.proofs.Math.Option.{some};
ghost use Rattle.stores.specs.Catalogue.{Live, Catalogue, store_head, entry_head, taken, stored, used, enter_old, enter_new, release_by, look_up_by, store_call, entering, releasing, looking_up};
ghost use Rattle.catalogue.specs.Stands.{Open, Opened, Stands, Standing, StandsTo, kept_of, entered_by, released_by, found_by, Looks, Looked, added, EndsAt};
ghost use Rattle.catalogue.specs.Claims.{StoreCalls};

pub use find::{Entries, Entry};
use find::{find_number, find_text, next_entry};
pub use form::{Checked, NoStore, check};
use layout::{AT_LENGTH, AT_USES, ENTRY_HEAD};
pub use layout::{STORE_HEAD, STORE_SIZE};
use number::{read_u16, read_u32, write};
use semantics::{Refusal, Refused};

// A type that was entered: its number, and its uses.
#[derive(Clone, Copy)]
pub struct Entered {
    pub number: u16,
    pub uses: u32,
}

// One use more of the type at `at`.
fn enter_old(store: &mut [u8], at: usize) -> Result<Entered, Refused>
    requires { Standing store.old at }
    ensures { (c : Catalogue) (l : Live) → Stands store.old c at l → entered_by result store.new ≡ kept_of (enter_old c l) }
{
    let number = read_u16(store, at);
    let uses = read_u32(store, at + AT_USES)
        .checked_add(1)
        .ok_or(Refusal::CountUsedUp)?;
    write(store, at + AT_USES, &uses.to_le_bytes());
    Ok(Entered { number, uses })
}

// A type more, behind the others.
fn add(store: &mut [u8], line: &[u8], number: u16, end: usize)
    requires { (store_head ≤ end) × (end + entry_head + length line.now ≤ length store.old) × (length line.now < 65536) }
    ensures { store.new ≡ added store.old line.now number end }
{
    let given = number.to_le_bytes();
    // A line has less than 65,536 bytes, so that the cast cuts nothing, and `try_from` would ask for what is known.
    let long = line.len() as u16;
    write(store, 0, &given);
    write(store, end, &given);
    write(store, end + AT_LENGTH, &long.to_le_bytes());
    write(store, end + AT_USES, &1u32.to_le_bytes());
    write(store, end + ENTRY_HEAD, line);
}

fn enter_new(store: &mut [u8], line: &[u8], checked: Checked) -> Result<Entered, Refused>
    requires { Opened store.old checked.last checked.end }
    ensures { (c : Catalogue) → Open store.old c → checked.last ≡ c.last → checked.end ≡ store_head + taken c.live → entered_by result store.new ≡ kept_of (enter_new c line.now) }
{
    let number = checked.last.checked_add(1).ok_or(Refusal::CountUsedUp)?;
    if store.len() - checked.end < line.len() + ENTRY_HEAD {
        return Err(Refusal::StoreFull.into());
    }
    add(store, line, number, checked.end);
    Ok(Entered { number, uses: 1 })
}

fn enter_line(store: &mut [u8], line: &[u8], checked: Checked) -> Result<Entered, Refused>
    requires { Opened store.old checked.last checked.end }
    ensures { entered_by result store.new ≡ store_call store.old (entering line.now) }
{
    if !ty::is_type_line(line) {
        return Err(Refused {
            why: Refusal::NoTypeLine,
            place: 1,
        });
    }
    match find_text(Entries::new(store, STORE_HEAD, checked.end), line) {
        Some(at) => enter_old(store, at),
        None => enter_new(store, line, checked),
    }
}

// Enters a type: its number and its uses.
pub fn enter(store: &mut [u8], line: &[u8]) -> Result<Entered, Refused>
    ensures { entered_by result store.new ≡ store_call store.old (entering line.now) }
{
    let checked = check(store)?;
    enter_line(store, line, checked)
}

// The type at `at` goes: the later ones move down, zeros behind them.
fn remove(store: &mut [u8], at: usize, end: usize)
    requires { StandsTo store.old at end }
    ensures { (c : Catalogue) (l : Live) → Stands store.old c at l → store.new ≡ stored (used c l.number 0) }
{
    let next = next_entry(store, at);
    text::copy_in(store, next, at, end - next);
    let behind = at + (end - next);
    store[behind..].fill(0);
}

// One use less of the type at `at`: the uses left.
fn release_at(store: &mut [u8], at: usize, end: usize) -> u32
    requires { StandsTo store.old at end }
    ensures { (c : Catalogue) (l : Live) → Stands store.old c at l → released_by (Ok result) store.new ≡ kept_of (release_by c (some l)) }
{
    let left = read_u32(store, at + AT_USES) - 1;
    if left == 0 {
        remove(store, at, end);
    } else {
        write(store, at + AT_USES, &left.to_le_bytes());
    }
    left
}

fn release_number(store: &mut [u8], number: u64, end: usize) -> Result<u32, Refused>
    requires { EndsAt store.old end }
    ensures { released_by result store.new ≡ store_call store.old (releasing number) }
{
    let at = find_number(Entries::new(store, STORE_HEAD, end), number).ok_or(Refusal::NotLive)?;
    Ok(release_at(store, at, end))
}

// Releases a use of a type: the uses left.
pub fn release(store: &mut [u8], number: u64) -> Result<u32, Refused>
    ensures { released_by result store.new ≡ store_call store.old (releasing number) }
{
    let checked = check(store)?;
    release_number(store, number, checked.end)
}

// Where the line of a live type stands in the store, and its uses.
#[derive(Clone, Copy)]
pub struct Line {
    pub at: usize,
    pub end: usize,
    pub uses: u32,
}

fn line_at(store: &[u8], at: usize) -> Line
    requires { Standing store.now at }
    ensures { ((c : Catalogue) (l : Live) → Stands store.now c at l → Looks (kept_of (look_up_by c (some l))) (Ok result) store.now)
        × (result.at ≡ at + entry_head) }
{
    Line {
        at: at + ENTRY_HEAD,
        end: next_entry(store, at),
        uses: read_u32(store, at + AT_USES),
    }
}

fn line_number(store: &[u8], number: u64, end: usize) -> Result<Line, Refused>
    requires { EndsAt store.now end }
    ensures { Looked store.now number result }
{
    let at = find_number(Entries::new(store, STORE_HEAD, end), number).ok_or(Refusal::NotLive)?;
    Ok(line_at(store, at))
}

// Looks a number up: the place of its line.
pub fn find_line(store: &[u8], number: u64) -> Result<Line, Refused>
    ensures { Looked store.now number result }
{
    let checked = check(store)?;
    line_number(store, number, checked.end)
}

// The line of a live type, as that part of the store, and its uses.
#[derive(Clone, Copy)]
pub struct Found<'a> {
    pub line: &'a [u8],
    pub uses: u32,
}

// Looks a number up: its line.
pub fn look_up<'a>(store: &'a [u8], number: u64) -> Result<Found<'a>, Refused>
    ensures looked { found_by result store.now ≡ store_call store.now (looking_up number) }
    ensures inside { IfOk result (λ found. length found.line.now ≤ length store.now) }
{
    let line = find_line(store, number)?;
    let at = line.at;
    let end = line.end;
    Ok(Found {
        line: &store[at..end],
        uses: line.uses,
    })
}

// The place of the claim over sequences of calls.
pub fn calls_agree() -> bool
    ensures { StoreCalls }
{
    true
}
