// A type catalogue in a file: typestore FILE enter LINE, FILE release N, FILE show N, FILE list.
// The first word printed says what came of it (docs/DECISIONS.md, 66).
#![tactic(auto)]

mod answer;
mod list;

ghost use Rattle.std.specs.Prelude.{◌≡◌, ◌≤◌, length, IfOk};

use answer::{Said, enter, release, show};
use catalogue::STORE_SIZE;
use semantics::Refusal;
use std::env::FillError;
use std::fs::{File, OpenFile, OpenOptions};
use std::io::{ErrorKind, Write};
use std::rt::{Env, Files};
use std::str::from_utf8;
use std::{fs, io};

// What is asked, with the line or the number.
#[derive(Clone, Copy)]
enum Call<'a> {
    Enter(&'a [u8]),
    Release(u64),
    Show(u64),
    List,
}

// The file, the new one that takes its place where it changes, and what is asked of it.
#[derive(Clone, Copy)]
struct Request<'a> {
    path: &'a str,
    beside: &'a str,
    call: Call<'a>,
}

// What the system refused, and of which file.
#[derive(Drop)]
struct Failure<'a> {
    what: &'a str,
    reason: io::Error,
}

// One byte more: a longer file fills it, and is refused.
const STORE_ROOM: usize = STORE_SIZE + 1;

// One byte more than a type line has: a longer one fills it, and is refused.
const LINE_ROOM: usize = 1025;

// The longest list has fewer bytes.
const OUT_ROOM: usize = 393216;

// The longest path, and one byte more.
const PATH_ROOM: usize = 4096;

// A path and `.new`.
const NAME_ROOM: usize = 4100;

// What cannot be printed is not told.
fn print(rt: &impl Print, text: &[u8]) {
    let _ = rt.write_all(text);
}

fn usage(rt: &impl Print) {
    let text = b"usage: typestore FILE enter LINE | FILE release N | FILE show N | FILE list\n";
    print(rt, text);
}

// What the system refused: the reason goes to standard error.
fn failed(rt: &(impl Print + Eprint), failure: Failure) {
    let what = failure.what;
    let reason = failure.reason;
    let _ = eprintln!(rt; "{what}: {reason}");
    print(rt, b"failed\n");
}

// What came of a call; a file that is no catalogue is named on standard error.
fn say(rt: &(impl Print + Eprint), path: &str, said: Said, out: &[u8])
    requires { said.length ≤ length out.now }
{
    let end = said.length;
    print(rt, &out[..end]);
    if said.refusal == Some(Refusal::WrongSize) {
        let _ = eprintln!(rt; "{path}: no catalogue");
    }
}

// A word that is no number of 64 bits is no live number, as 0 is none.
fn number(word: &[u8]) -> u64 {
    text::decimal(word).unwrap_or(0)
}

// `list` has no third word, the others have one.
fn call_of<'a>(verb: &[u8], word: &'a [u8], args: usize) -> Option<Call<'a>> {
    match (verb, args) {
        (b"list", 3) => Some(Call::List),
        (b"enter", 4) => Some(Call::Enter(word)),
        (b"release", 4) => Some(Call::Release(number(word))),
        (b"show", 4) => Some(Call::Show(number(word))),
        _ => None,
    }
}

// The call on the bytes of a file.
fn answer_to(call: Call, store: &mut [u8], out: &mut [u8]) -> Said
    ensures { length store.old ≤ 65537 → result.length ≤ 393216 }
{
    match call {
        Call::Enter(line) => enter(store, line, out),
        Call::Release(number) => release(store, number, out),
        Call::Show(number) => show(store, number, out),
        Call::List => list::list(store, out),
    }
}

// How many bytes of a file were read; one that is missing is the empty store.
fn read_store<'a, R: Files>(
    rt: &R,
    path: &'a str,
    store: &mut [u8; STORE_ROOM],
) -> Result<usize, Failure<'a>>
    ensures { IfOk result (λ n. n ≤ length store.new) }
{
    let mut file = match File::open(rt, path) {
        Ok(file) => file,
        Err(reason) => {
            if reason.kind() == ErrorKind::NotFound {
                return Ok(STORE_SIZE);
            }
            return Err(Failure { what: path, reason });
        }
    };
    input::read_full(&mut file, store).map_err(|reason| Failure { what: path, reason })
}

// Writes a new file: all of its bytes are then on their device.
fn write_store(file: impl Write + OpenFile + Drop, store: &[u8]) -> io::Result<()> {
    let mut file = file;
    file.write_all(store)?;
    file.sync_all()
}

// Writes the new file, which takes the old one's place.
fn replace<'a, R: Files>(
    rt: &R,
    file: R::File,
    request: Request<'a>,
    store: &[u8],
) -> Result<(), Failure<'a>> {
    let path = request.path;
    let beside = request.beside;
    write_store(file, store).map_err(|reason| Failure {
        what: beside,
        reason,
    })?;
    fs::rename(rt, beside, path).map_err(|reason| Failure { what: path, reason })
}

// The call, and whether the new file has become the old one: not where the call changes nothing. (Store and output are two arrays that `main`
// lends: a struct of the two would be opened again for each call, which reads the one while it writes the other.)
fn settle<'a, R: Files + Print + Eprint>(
    rt: &R,
    file: R::File,
    request: Request<'a>,
    store: &mut [u8; STORE_ROOM],
    out: &mut [u8; OUT_ROOM],
) -> Result<bool, Failure<'a>> {
    let n = read_store(rt, request.path, store)?;
    let said = answer_to(request.call, &mut store[..n], out);
    let is_new = said.refusal.is_none();
    if is_new {
        replace(rt, file, request, &store[..n])?;
    }
    say(rt, request.path, said, out);
    Ok(is_new)
}

// Enter and release: the new file is made first, so that no two change one store at a time.
fn change<'a, R: Files + Print + Eprint>(
    rt: &R,
    request: Request<'a>,
    store: &mut [u8; STORE_ROOM],
    out: &mut [u8; OUT_ROOM],
) -> Result<(), Failure<'a>> {
    let beside = request.beside;
    let file = OpenOptions::new()
        .write(true)
        .create_new(true)
        .open(rt, beside)
        .map_err(|reason| Failure {
            what: beside,
            reason,
        })?;
    let is_new = match settle(rt, file, request, store, out) {
        Ok(is_new) => is_new,
        // Told before the new file goes: this order of writes is kept.
        Err(failure) => {
            failed(rt, failure);
            false
        }
    };
    if !is_new {
        let _ = fs::remove_file(rt, beside);
    }
    Ok(())
}

// Show and list.
fn look<'a, R: Files + Print + Eprint>(
    rt: &R,
    request: Request<'a>,
    store: &mut [u8; STORE_ROOM],
    out: &mut [u8; OUT_ROOM],
) -> Result<(), Failure<'a>> {
    let n = read_store(rt, request.path, store)?;
    let said = answer_to(request.call, &mut store[..n], out);
    say(rt, request.path, said, out);
    Ok(())
}

fn run<'a, R: Files + Print + Eprint>(
    rt: &R,
    request: Request<'a>,
    store: &mut [u8; STORE_ROOM],
    out: &mut [u8; OUT_ROOM],
) -> Result<(), Failure<'a>> {
    match request.call {
        Call::Enter(_) | Call::Release(_) => change(rt, request, store, out),
        Call::Show(_) | Call::List => look(rt, request, store, out),
    }
}

// A path is text in the kit's library.
fn no_name<'a>() -> Failure<'a> {
    Failure {
        what: "FILE",
        reason: io::Error::new(ErrorKind::InvalidFilename, "the name is not UTF-8"),
    }
}

// The call on the file of this name.
fn run_in<R: Files + Print + Eprint>(
    rt: &R,
    path: &[u8],
    call: Call,
    store: &mut [u8; STORE_ROOM],
    out: &mut [u8; OUT_ROOM],
)
    requires { length path.now ≤ 4096 }
{
    let mut name = [0u8; NAME_ROOM];
    let n = text::append(&mut name, 0, path);
    let end = text::append(&mut name, n, b".new");
    let (Ok(path), Ok(beside)) = (from_utf8(path), from_utf8(&name[..end])) else {
        failed(rt, no_name());
        return;
    };
    let request = Request { path, beside, call };
    if let Err(failure) = run(rt, request, store, out) {
        failed(rt, failure);
    }
}

// The third word, or as much of it as there is room for.
fn last_word(env: &impl Env, buf: &mut [u8]) -> usize
    ensures { result ≤ length buf.new }
{
    match env.arg(3, buf) {
        Ok(n) => n,
        Err(FillError::TooLong) => buf.len(),
        Err(FillError::NotPresent) => 0,
    }
}

// How many words there are, as far as five.
fn arg_count(env: &impl Env) -> usize {
    (0..5)
        .find(|i| matches!(env.arg(*i, &mut []), Err(FillError::NotPresent)))
        .unwrap_or(5)
}

fn main(rt: HostRuntime) {
    let mut path = [0u8; PATH_ROOM];
    let mut verb = [0u8; 8];
    let (Ok(n), Ok(v)) = (rt.arg(1, &mut path), rt.arg(2, &mut verb)) else {
        usage(&rt);
        return;
    };
    let mut word = [0u8; LINE_ROOM];
    let w = last_word(&rt, &mut word);
    let Some(call) = call_of(&verb[..v], &word[..w], arg_count(&rt)) else {
        usage(&rt);
        return;
    };
    let mut store = [0u8; STORE_ROOM];
    let mut out = [0u8; OUT_ROOM];
    run_in(&rt, &path[..n], call, &mut store, &mut out);
}
