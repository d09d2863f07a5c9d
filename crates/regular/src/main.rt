// Makes the old type line on standard input regular: writes the regular line, or `refused,NUMBER,PLACE`, and LF. One LF behind the old line
// ends it and is no part of it.
#![tactic(auto)]

use semantics::Refused;
use std::io;
use writer::Writer;

// Bytes for the line of a refusal.
const REFUSED_ROOM: usize = 64;

// Two bytes more than an old line may have: a longer one, with or without its LF, is refused.
const LINE_ROOM: usize = 4098;

// The line of a refusal. (Apart from the call: whatever is called beside a `Writer` is looked at for divisions, RULES 10.1.)
fn say_refused(rt: &impl Print, refused: Refused) -> io::Result<()> {
    let mut line = [0u8; REFUSED_ROOM];
    let mut writer = Writer::new(&mut line, 0);
    report::refused_line(&mut writer, u64::from(refused.why), refused.place);
    let n = writer.fill;
    rt.write_all(&line[..n])
}

// A line's outcome.
fn say_regular(rt: &impl Print, text: &[u8], work: &mut [u8], out: &mut [u8]) -> io::Result<()> {
    match old::regular_line(text, work, out) {
        Ok(n) => {
            rt.write_all(&out[..n])?;
            rt.write_all(b"\n")
        }
        Err(refused) => say_refused(rt, refused),
    }
}

fn main(rt: HostRuntime) -> io::Result<()> {
    let mut text = [0u8; LINE_ROOM];
    let n = input::read_full(&mut rt.stdin(), &mut text)?;
    let text = &text[..n];
    let line = text.strip_suffix(b"\n").unwrap_or(text);
    let mut work = [0u8; semantics::WORK_SIZE];
    let mut out = [0u8; semantics::TYPE_LIMIT];
    say_regular(&rt, line, &mut work, &mut out)
}
