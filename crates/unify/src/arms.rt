// Which arm of the Rust's `match` two types meet.
ghost use Rattle.std.specs.Prelude.{◌≡◌};
ghost use Rattle.unify.specs.Letters.{arm_of_kind, arm_of_kinds, arm_of_unequal};
ghost use Rattle.unify.specs.Arms.{TwoTypes, ArmIs};

use crate::Span;
use crate::predicates::{is_any, is_numeric, is_unknown};
use ty::{LIST, MAP, NODE, NULL, RELATIONSHIP, UNION};

// The arms: the answer is one of the two, or Unknown; Null and another; two numbers, lists, maps, nodes, relationships; two unions, one
// union; two types that do not unify.
#[derive(Clone, Copy, PartialEq, Eq)]
pub enum Arm {
    Left,
    Right,
    AnyUnknown,
    NullLeft,
    NullRight,
    Numbers,
    Lists,
    Maps,
    Nodes,
    Relationships,
    Unions,
    UnionLeft,
    UnionRight,
    Apart,
}

// The arm of two types of one kind that are not equal.
#[tactic(auto, unfolding(crate::specs::Letters::arm_of_kind))]
fn arm_of_kind(k: u8) -> Arm
    ensures { result ≡ arm_of_kind k }
{
    match k {
        LIST => Arm::Lists,
        MAP => Arm::Maps,
        NODE => Arm::Nodes,
        RELATIONSHIP => Arm::Relationships,
        UNION => Arm::Unions,
        _ => Arm::Apart,
    }
}

// The arm of two types of different kinds, none Any, Unknown or Null.
#[tactic(auto, unfolding(crate::specs::Letters::arm_of_kinds))]
fn arm_of_kinds(j: u8, k: u8) -> Arm
    ensures { result ≡ arm_of_kinds j k }
{
    if is_numeric(j) && is_numeric(k) {
        Arm::Numbers
    } else if j == UNION {
        Arm::UnionLeft
    } else if k == UNION {
        Arm::UnionRight
    } else {
        Arm::Apart
    }
}

// The arm of two types that are not equal, none Any or Unknown.
#[tactic(auto, unfolding(crate::specs::Letters::arm_of_unequal))]
fn arm_of_unequal(j: u8, k: u8) -> Arm
    ensures { result ≡ arm_of_unequal j k }
{
    if j == NULL {
        Arm::NullLeft
    } else if k == NULL {
        Arm::NullRight
    } else if j == k {
        arm_of_kind(k)
    } else {
        arm_of_kinds(j, k)
    }
}

// The arm of two types.
pub fn arm_of(work: &[u8], a: Span, b: Span) -> Arm
    requires { TwoTypes work.now a b }
    ensures { ArmIs work.now a b result }
{
    let left = a.from;
    let right = b.from;
    let j = work[left];
    let k = work[right];
    if is_any(j) {
        return Arm::Right;
    }
    if is_any(k) {
        return Arm::Left;
    }
    if is_unknown(j) || is_unknown(k) {
        return Arm::AnyUnknown;
    }
    let left_end = a.to;
    let right_end = b.to;
    if text::same(&work[left..left_end], &work[right..right_end]) {
        return Arm::Left;
    }
    arm_of_unequal(j, k)
}
