// Calls of built-in functions, by their names in hexadecimal digits.
ghost use Rattle.std.specs.Prelude.{◌≡◌, map};
ghost use Rattle.std.proofs.Math.Option.{Option};
ghost use Rattle.semantics.specs.Ty.{Ty};
ghost use Rattle.semantics.specs.Builtins.{lookup};
ghost use Rattle.semantics.specs.Walk.{call_type, call_faults};
ghost use Rattle.text.specs.Text.{digit_of};
ghost use Rattle.builtins.specs.Rows.{SomeFirst};
ghost use Rattle.walk_run.specs.Run.{told, args_of};
ghost use Rattle.exprs.specs.End.{Ends, Countable, KeptAt, SomeArg, arg_kept};
ghost use Rattle.exprs.specs.End.{Checked};

use crate::front::put_letter;
use crate::state::{Accumulator, first_kept};
use builtins::Builtin;
use report::Report;
use ty::ANY;

// The first argument, if there is one, against the one parameter.
fn check_builtin_args(
    builtin: Builtin,
    first: Option<usize>,
    work: &[u8],
    report: &mut Report<'_, '_>,
)
    requires { SomeFirst work.now first × Countable report.old }
    ensures keeps { report.new.writer.ghost_name ≡ report.old.writer.ghost_name }
    ensures keeps_out { report.new.writer.now.out.ghost_name ≡ report.old.writer.now.out.ghost_name }
    ensures adds { Checked builtin work.now first report.old report.new }
{
    let Some(_len) = first else {
        return;
    };
    let kind = work[0];
    if !builtin.param().accepts(kind) {
        report.fault_call(builtin, kind);
    }
}

pub fn end_call(name: &[u8], st: Accumulator, work: &mut [u8], report: &mut Report<'_, '_>) -> usize
    requires { SomeArg work.old st × Countable report.old }
    ensures keeps { report.new.writer.ghost_name ≡ report.old.writer.ghost_name }
    ensures keeps_out { report.new.writer.now.out.ghost_name ≡ report.old.writer.now.out.ghost_name }
    ensures ends { (a : Option Ty) → KeptAt (arg_kept a) work.old st → Ends (told (call_type (lookup (map digit_of name.now)) (args_of (arg_kept a))) (call_faults (lookup (map digit_of name.now)) (args_of (arg_kept a)))) work.old work.new report.old report.new (Some result) }
{
    let Some(builtin) = builtins::lookup(name) else {
        return put_letter(work, ANY);
    };
    let first = first_kept(st);
    check_builtin_args(builtin, first, work, report);
    builtin.ret().resolve(work, first)
}
