// What the programs that replay stored calls share (harness/vectors/README.md): the cases' text, what a case must answer, the counts.
#![tactic(auto)]

mod answer;
mod cases;
mod tally;

pub use answer::{Answer, Verdict, judged};
pub use cases::Cases;
use std::io;
pub use tally::Tally;

// The cases of `src`, one behind the other, each by `case`. A case that does not go on is malformed too.
fn replay_all<'a, F: Fn(&mut Cases<'a>) -> Option<Verdict>>(src: &'a [u8], case: F) -> Tally
    requires { F.IsAlwaysCallable case }
{
    let mut tally = Tally::new();
    let mut cases = Cases::new(src);
    while !cases.is_empty() {
        let left = cases.len();
        let verdict = case(&mut cases);
        match verdict {
            Some(verdict) if cases.len() < left => tally.add(verdict),
            _ => {
                tally.malformed = Some(tally.met);
                return tally;
            }
        }
    }
    tally
}

// Replays the cases of the standard input, for which there is this room and one byte less, and writes one line of counts.
pub fn replay_input<const N: usize, F: for<'a> Fn(&mut Cases<'a>) -> Option<Verdict>>(
    rt: &(impl Print + Input),
    room: &mut [u8; N],
    case: F,
) -> io::Result<()>
    requires { F.IsAlwaysCallable case }
{
    let n = input::read_full(&mut rt.reader(), room)?;
    if n == room.len() {
        return println!(rt; "the input is too long");
    }
    let tally = replay_all(&room[..n], case);
    println!(rt; "{tally}")
}
