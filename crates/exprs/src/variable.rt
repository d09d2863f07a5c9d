// A variable: its type by its binding.
ghost use Rattle.std.specs.Prelude.{◌≡◌, ◌≤◌, length};
ghost use Rattle.semantics.specs.Limits.{type_limit};
ghost use Rattle.semantics.specs.Walk.{kind_type};
ghost use Rattle.ty.specs.Parts.{TypeAt};
ghost use Rattle.line.specs.Kinds.{kind_no};
ghost use Rattle.hir.specs.Bind.{BindsAt, kind_of};

use crate::front::{put_letter, put_pair};
use line::{VarId, VarKind};
use ty::{ANY, CLOSE, NODE, PATH, RELATIONSHIP};

// The type by the kind of the binding.
fn kind_type(kind: VarKind, work: &mut [u8]) -> usize
    requires { type_limit ≤ length work.old }
    ensures { TypeAt work.new 0 result (kind_type (kind_no kind)) × (length work.new ≡ length work.old) }
{
    match kind {
        VarKind::Node => put_pair(work, NODE, CLOSE),
        VarKind::Relationship => put_pair(work, RELATIONSHIP, CLOSE),
        VarKind::Path => put_letter(work, PATH),
        VarKind::Value => put_letter(work, ANY),
    }
}

// The type of a variable, which the `b` lines from `from` to `to` bind, or none of them.
pub fn var_type(sheet: &[u8], from: usize, to: usize, var: VarId, work: &mut [u8]) -> usize
    requires { BindsAt sheet.now from to × (type_limit ≤ length work.old) }
    ensures { ((b : BindsAt sheet.now from to) → TypeAt work.new 0 result (kind_type (kind_of var.0 b.heads))) × (length work.new ≡ length work.old) }
{
    kind_type(hir::bind_kind(sheet, from, to, var), work)
}
