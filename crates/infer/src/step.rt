// Before the first child, after a child, after the last.
ghost use Rattle.std.specs.Prelude.{◌≡◌, ◌<◌, ◌≤◌, length};
ghost use Rattle.std.proofs.Math.Seq.{slice};
ghost use Rattle.semantics.specs.Limits.{type_limit};
ghost use Rattle.semantics.specs.Sheet.{Typing};
ghost use Rattle.walk_run.specs.Run.{start};
ghost use Rattle.ty.specs.Kind.{SomeKind};
ghost use Rattle.exprs.specs.State.{StAs, FineKept};
ghost use Rattle.exprs.specs.End.{Countable};
ghost use Rattle.exprs.specs.Rules.{typing_rule};
ghost use Rattle.infer.specs.Steps.{AskedBy, SomeStep, KeptBy, SteppedBy, SomeEnd, EndedBy};

use exprs::{Accumulator, Role, Rule, rule_of};
use line::Head;
use operators::Need;
use report::Report;

// Where the `b` lines stand.
#[derive(Clone, Copy)]
pub struct Env {
    pub from: usize,
    pub to: usize,
}

// A sheet that was read as a whole: its text, and its `b` lines.
#[derive(Clone, Copy)]
pub struct Sheet<'s> {
    pub text: &'s [u8],
    pub binds: Env,
}

// Before the first child. (The work area is a slice of no one length, since a child is lent what is behind its mark: that there is room for a
// type is asked for.)
pub fn start(rule: Rule, work: &mut [u8]) -> Accumulator
    requires { type_limit ≤ length work.old }
    ensures { (length work.new ≡ length work.old) × ((q : Typing) → rule ≡ typing_rule q → StAs (start q) work.new result × FineKept (start q)) }
{
    match rule {
        Rule::Listing => exprs::start_list(work),
        Rule::Mapping => exprs::start_map(work),
        Rule::Casing => exprs::start_case(),
        Rule::Comprehension => exprs::start_comprehension(work),
        _ => exprs::start_empty(),
    }
}

// What is kept after a child.
fn keep(
    rule: Rule,
    role: Role,
    st: Accumulator,
    work: &mut [u8],
    n: usize,
    name: &[u8],
) -> Option<Accumulator>
    requires { SomeStep rule role work.old st n name.now }
    ensures { KeptBy rule role work.old work.new st n name.now result }
{
    match rule {
        Rule::Listing => exprs::list_item(st, work, n),
        Rule::Mapping => exprs::map_value(st, work, n, name),
        Rule::Element | Rule::Slice | Rule::Call | Rule::Unary => Some(exprs::keep_first(st, n)),
        Rule::Operator | Rule::Membership => Some(exprs::keep_two(st, n)),
        Rule::Casing => Some(exprs::case_child(role, st, work, n)),
        Rule::Comprehension => Some(exprs::comprehension_child(st, n)),
        Rule::Constant | Rule::Variable | Rule::Silent | Rule::Entry => Some(st),
    }
}

// What a child's type is asked for by its role.
fn check_role(role: Role, kind: u8, report: &mut Report<'_, '_>)
    requires { Countable report.old }
    ensures keeps { report.new.writer.ghost_name ≡ report.old.writer.ghost_name }
    ensures keeps_out { report.new.writer.now.out.ghost_name ≡ report.old.writer.now.out.ghost_name }
    ensures asks { AskedBy role kind report.old report.new }
{
    match role {
        Role::Condition => operators::require(Need::Bool, kind, report),
        Role::Plain | Role::Answer => {}
    }
}

// After a child of `n` bytes behind what is kept; an entry's name in hexadecimal digits.
pub fn step(
    rule: Rule,
    role: Role,
    st: Accumulator,
    work: &mut [u8],
    n: usize,
    name: &[u8],
    report: &mut Report<'_, '_>,
) -> Option<Accumulator>
    requires { SomeStep rule role work.old st n name.now × Countable report.old }
    ensures keeps { report.new.writer.ghost_name ≡ report.old.writer.ghost_name }
    ensures keeps_out { report.new.writer.now.out.ghost_name ≡ report.old.writer.now.out.ghost_name }
    ensures steps { SteppedBy rule role work.old work.new st n name.now report.old report.new result }
{
    let k = st.len;
    check_role(role, work[k], report);
    keep(rule, role, st, work, n, name)
}

// The digits of a line's name; where the line has no name its range is empty, and so is the text.
pub fn name_of(text: &[u8], k: Head) -> &[u8]
    requires { k.stop ≤ length text.now }
    ensures { result.now ≡ slice k.name k.stop text.now }
{
    text.get(k.name..k.stop).unwrap_or_default()
}

// After the last child: the type to the front, the line's own faults to the report.
pub fn finish(
    sheet: Sheet<'_>,
    h: Head,
    st: Accumulator,
    work: &mut [u8],
    report: &mut Report<'_, '_>,
) -> Option<usize>
    requires { SomeEnd sheet.text.now sheet.binds h work.old st report.old }
    ensures keeps { report.new.writer.ghost_name ≡ report.old.writer.ghost_name }
    ensures keeps_out { report.new.writer.now.out.ghost_name ≡ report.old.writer.now.out.ghost_name }
    ensures ends { EndedBy sheet.entry.text.now sheet.entry.binds h work.old work.new st report.old report.new result }
{
    let len = match rule_of(h.word) {
        Rule::Constant => exprs::constant(h.word, work),
        Rule::Variable => {
            let v = h.var;
            exprs::var_type(sheet.text, sheet.binds.from, sheet.binds.to, v, work)
        }
        Rule::Element => exprs::end_index(st, work),
        Rule::Slice => exprs::end_slice(st, work),
        Rule::Listing => exprs::end_list(st, work),
        Rule::Mapping => st.len,
        Rule::Call => {
            let name = name_of(sheet.text, h);
            exprs::end_call(name, st, work, report)
        }
        Rule::Operator => return operators::infer_binop(h.num, st, work, report),
        Rule::Unary => operators::infer_unaryop(h.num, st, work, report),
        Rule::Casing => return exprs::end_case(st, work),
        Rule::Membership => return operators::check_in_list(st, work, report),
        Rule::Comprehension => return exprs::end_comprehension(st, work),
        Rule::Silent | Rule::Entry => unreachable!(),
    };
    Some(len)
}
