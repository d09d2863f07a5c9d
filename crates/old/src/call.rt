// The call that makes an old type line regular.
ghost use Rattle.std.specs.Prelude.{◌≡◌, ◌≤◌, length};
ghost use Rattle.semantics.specs.Limits.{type_limit};
ghost use Rattle.old_lines.specs.Old.{regular_call};
ghost use Rattle.old.specs.Call.{settled_by, SomeOld, Settles};

use crate::making::regular;
use crate::reader::is_old_line;
use semantics::{Refusal, Refused, WORK_SIZE};

// Bytes of output that the call asks for (cause 7).
const OLD_OUTPUT: usize = 1024;

// The regular line of an old one to the output: how long it is.
fn write_regular(s: &[u8], work: &mut [u8; WORK_SIZE], out: &mut [u8]) -> Result<usize, Refusal>
    requires { SomeOld s.now × (type_limit ≤ length out.old) }
    ensures { Settles (regular_call s.now work.old out.old)
        work.old out.old out.new result }
{
    let made = regular(s, 0, semantics::NESTING_LIMIT, work).ok_or(Refusal::TypeTooLarge)?;
    Ok(text::append(out, 0, &work[..made.len]))
}

// The same, with the tests before it. A line that is regular already takes one pass, and is written as it stands; of any other the strict reader
// stops at the first part that is out of order.
fn make_regular(s: &[u8], work: &mut [u8; WORK_SIZE], out: &mut [u8]) -> Result<usize, Refusal>
    ensures { Settles (regular_call s.now work.old out.old)
        work.old out.old out.new result }
{
    if out.len() < OLD_OUTPUT {
        return Err(Refusal::OutputTooShort);
    }
    if ty::is_type_line(s) {
        return Ok(text::append(out, 0, s));
    }
    if !is_old_line(s) {
        return Err(Refusal::NoOldLine);
    }
    write_regular(s, work, out)
}

// The whole call: the length of the regular line or why there is none, and what both buffers have afterwards.
pub fn regular_line(s: &[u8], work: &mut [u8], out: &mut [u8]) -> Result<usize, Refused>
    ensures { settled_by result work.new out.new ≡ regular_call s.now work.old out.old }
{
    let Some(work) = work.as_mut_array() else {
        return Err(Refusal::WrongSize.into());
    };
    let made = make_regular(s, work, out);
    work.fill(0);
    if made.is_err() {
        out.fill(0);
    }
    Ok(made?)
}
