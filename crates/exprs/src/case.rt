// CASE: the members of the union of its answers so far.
ghost use Rattle.std.specs.Prelude.{[], ◌≡◌, ◌<◌, get_or, length};
ghost use Rattle.semantics.specs.Bytes.{Bytes};
ghost use Rattle.semantics.specs.Sheet.{plain};
ghost use Rattle.walk_run.specs.Run.{Kept, arms, end_case};
ghost use Rattle.report.specs.declared.Report.{Report};
ghost use Rattle.exprs.specs.State.{StAs, ArmForm, SomeArm, ArmKept};
ghost use Rattle.exprs.specs.End.{Ends, KeptAt, SomeArms};
ghost use Rattle.exprs.specs.Rules.{child_role, case_row, AnswerKept};

use crate::role::Role;
use crate::state::{Accumulator, state};

// No answer.
#[tactic(auto, unfolding(crate::specs::State::text_of, crate::specs::State::place, crate::specs::State::behind, crate::specs::State::full, ty::specs::Parts::lines_of))]
pub fn start_case() -> Accumulator
    ensures { (s : Bytes) → StAs (arms []) s result }
{
    state(0, 0)
}

// The role of the j-th child: a scrutinee by the lowest bit, then conditions and answers in turn, then an answer by the next bit. The bits
// are taken as the definitions take them, from the number that the line says. (No `From` makes a usize of a u64: both casts are of what fits.)
pub fn case_role(flag: u64, count: u64, j: usize) -> Role
    requires { (count < 65536) × (j < 1048576) }
    ensures { j < length (case_row flag count) → result ≡ child_role (get_or (case_row flag count) j plain) }
{
    let first = (flag % 2) as usize;
    if j < first {
        return Role::Plain;
    }
    let i = j - first;
    if i >= 2 * (count as usize) {
        return Role::Answer;
    }
    if i % 2 == 1 {
        return Role::Answer;
    }
    if first == 1 {
        Role::Plain
    } else {
        Role::Condition
    }
}

// An answer joins the union; once that is too large, the answers still to come are only typed.
fn case_arm(st: Accumulator, work: &mut [u8], n: usize) -> Accumulator
    requires { SomeArm work.old st n }
    ensures { ArmKept work.old work.new st n result }
{
    if st.over {
        return st;
    }
    let k = st.len;
    match ty::add_union(work, k, k + n) {
        Some(len) => state(len, 0),
        None => Accumulator {
            len: 0,
            second: 0,
            over: true,
        },
    }
}

// An answer; a scrutinee or a condition only stands behind.
pub fn case_child(role: Role, st: Accumulator, work: &mut [u8], n: usize) -> Accumulator
    requires { SomeArm work.old st n }
    ensures { AnswerKept role work.old work.new st n result }
{
    match role {
        Role::Answer => case_arm(st, work, n),
        Role::Plain | Role::Condition => st,
    }
}

// The union of the answers.
pub fn end_case(st: Accumulator, work: &mut [u8]) -> Option<usize>
    requires { SomeArms work.old st }
    ensures { (k : Kept) → ArmForm k → KeptAt k work.old st → (r : Report) → Ends (end_case k) work.old work.new r r result }
{
    if st.over {
        return None;
    }
    ty::close_union(work, st.len)
}
