// Comprehensions of lists and of patterns: `J,` as for a list, and behind it the last child's type.
ghost use Rattle.std.specs.Prelude.{◌≡◌, [], ◌∷◌, ◌≤◌, get_or, length};
ghost use Rattle.std.proofs.Math.Option.{none, some};
ghost use Rattle.semantics.specs.Limits.{type_limit};
ghost use Rattle.semantics.specs.Bytes.{Bytes};
ghost use Rattle.semantics.specs.Ty.{Ty};
ghost use Rattle.semantics.specs.Sheet.{Role as ChildRole, plain, condition, present};
ghost use Rattle.walk_run.specs.Run.{last, end_last};
ghost use Rattle.report.specs.declared.Report.{Report};
ghost use Rattle.exprs.specs.State.{StAs, LastChild};
ghost use Rattle.exprs.specs.End.{Ends, KeptAt, SomeLast};
ghost use Rattle.exprs.specs.Rules.{child_role};

use crate::list::start_list;
use crate::role::Role;
use crate::state::{Accumulator, state};

// `J,`, as for a list.
pub fn start_comprehension(work: &mut [u8]) -> Accumulator
    requires { type_limit ≤ length work.old }
    ensures { StAs (last none) work.new result × (length work.new ≡ length work.old) }
{
    start_list(work)
}

// The role of the j-th child: a first one, as many conditions as the bit says, a last. (No `From` makes a u64 of a usize.)
pub fn comprehension_role(bit: u64, j: usize) -> Role
    ensures { (p : ChildRole) → child_role p ≡ Role.Plain → bit ≤ 1 → result ≡ child_role (get_or (p ∷ present bit condition (plain ∷ [])) j plain) }
{
    if j == 0 {
        return Role::Plain;
    }
    if j as u64 > bit {
        Role::Plain
    } else {
        Role::Condition
    }
}

// The last child's type in place of the one before.
pub fn comprehension_child(st: Accumulator, n: usize) -> Accumulator
    ensures { (s : Bytes) (t : Ty) → LastChild t s st n → StAs (last (some t)) s result }
{
    state(st.len, n)
}

// The list of the last child's type.
pub fn end_comprehension(st: Accumulator, work: &[u8]) -> Option<usize>
    requires { SomeLast work.now st }
    ensures { (t : Ty) → KeptAt (last (some t)) work.now st → (r : Report) → Ends (end_last (last (some t))) work.now work.now r r result }
{
    let n = st.len + st.second;
    ty::fits(&work[..n]).then_some(n)
}
