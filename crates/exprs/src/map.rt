// A map literal: the map of its entries so far, whose line is the type at the end.
ghost use Rattle.std.specs.Prelude.{◌≡◌, ◌≤◌, length};
ghost use Rattle.semantics.specs.Limits.{type_limit};
ghost use Rattle.semantics.specs.Ty.{∅ᶠ};
ghost use Rattle.walk_run.specs.Run.{entries};
ghost use Rattle.exprs.specs.State.{StAs, SomeEntry, EntryKept};

use crate::front::put_pair;
use crate::state::{Accumulator, state};
use ty::{CLOSE, MAP};

// The map with no entries.
pub fn start_map(work: &mut [u8]) -> Accumulator
    requires { type_limit ≤ length work.old }
    ensures { StAs (entries ∅ᶠ) work.new result × (length work.new ≡ length work.old) }
{
    state(put_pair(work, MAP, CLOSE), 0)
}

// An entry of a map, its name in hexadecimal digits.
pub fn map_value(st: Accumulator, work: &mut [u8], n: usize, name: &[u8]) -> Option<Accumulator>
    requires { SomeEntry work.old st n name.now }
    ensures { EntryKept work.old work.new st n name.now result }
{
    let k = st.len;
    let len = ty::put_entry(work, k, k + n, name)?;
    Some(state(len, 0))
}
