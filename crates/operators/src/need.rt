// What is asked of a type (`require_numeric`, `require_string`, `require_bool`), and the fault of one that is something else. A type's kind
// is the first letter of its line: it is read where it stands, and arithmetic writes it on.
ghost use Rattle.std.specs.Prelude.{◌≡◌};
ghost use Rattle.semantics.specs.Ty.{Ty};
ghost use Rattle.semantics.specs.Walk.{require, meets, fault_of};
ghost use Rattle.ty.specs.Read.{kind_of};
ghost use Rattle.ty.specs.Kind.{SomeKind};
ghost use Rattle.report.specs.Report.{Adds, HasRoom, code_fault};
ghost use Rattle.exprs.specs.End.{Countable};
ghost use Rattle.operators.specs.Helpers.{SomeKinds, TwoAsked, need_of};

use report::{Report, TypeFault};
use ty::{BOOL, FLOAT, INT, NUM, STRING};

#[derive(Clone, Copy, PartialEq, Eq)]
pub enum Need {
    Number,
    Text,
    Bool,
}

// Whether a type of this kind is what is asked for. An open type always is.
pub fn meets(need: Need, kind: u8) -> bool
    ensures { (u : Ty) → kind_of u ≡ kind → result ≡ meets (need_of need) u }
{
    if report::is_open(kind) {
        return true;
    }
    match need {
        Need::Number => matches!(kind, INT | FLOAT | NUM),
        Need::Text => kind == STRING,
        Need::Bool => kind == BOOL,
    }
}

// The fault of one that is not.
#[tactic(auto, unfolding(semantics::specs::Walk::fault_of))]
fn fault_code(need: Need) -> TypeFault
    ensures { (u : Ty) → code_fault result u ≡ fault_of (need_of need) u }
{
    match need {
        Need::Number => TypeFault::E2009,
        Need::Text => TypeFault::E2010,
        Need::Bool => TypeFault::E2011,
    }
}

pub fn require(need: Need, kind: u8, report: &mut Report<'_, '_>)
    requires { HasRoom report.old }
    ensures keeps { report.new.writer.ghost_name ≡ report.old.writer.ghost_name }
    ensures keeps_out { report.new.writer.now.out.ghost_name ≡ report.old.writer.now.out.ghost_name }
    ensures adds { (u : Ty) → kind_of u ≡ kind → Adds (require (need_of need) u) report.old report.new }
{
    if meets(need, kind) {
        return;
    }
    report.fault(fault_code(need), kind);
}

// The same asked of two types: of a kind that types have it is known how little room the first takes.
pub fn require_both(need: Need, a: u8, b: u8, report: &mut Report<'_, '_>)
    requires { SomeKinds a b × Countable report.old }
    ensures keeps { report.new.writer.ghost_name ≡ report.old.writer.ghost_name }
    ensures keeps_out { report.new.writer.now.out.ghost_name ≡ report.old.writer.now.out.ghost_name }
    ensures adds { TwoAsked (need_of need) a b report.old report.new }
{
    require(need, a, report);
    require(need, b, report);
}
