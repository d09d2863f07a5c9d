// The reader of type lines, field by field, for each form. (A text and places in it, and no slices: see `nesting_end` in end.rt.)
ghost use Rattle.std.specs.Prelude.{◌≡◌, true, ◌+◌, ◌≤◌, ◌<◌, length, drop};
ghost use Rattle.semantics.specs.Codes.{comma};
ghost use Rattle.text.specs.Text.{index_of};
ghost use Rattle.std.proofs.Math.Seq.{slice};
ghost use Rattle.ty.specs.Read.{in_order, name_in, label_allowed, LabelsRead, NodeRead, RelRead, TypeRead};
ghost use Rattle.ty.specs.Form.{FormLaws, SomeSeen, IsAllowed};

use crate::end::{Content, is_field, letter, next_field, part_follows, parts_end, value_at};
use crate::form::{Before, Form};
use crate::letters::{CLOSE, MAP, OPEN, UNION};
use std::cmp::Ordering;

// Whether [at..end) is a name, and a comma behind it.
pub fn is_name(s: &[u8], at: usize, end: usize) -> bool
    requires { (at ≤ end) × (end ≤ length s.now) }
    ensures { result ≡ name_in s.now at end }
{
    end < s.len() && text::check_name(&s[at..end]).is_ok()
}

// Whether the part b may follow n parts, the last of which is a.
#[tactic(auto, unfolding(crate::specs::Read::in_order))]
pub fn in_order(a: &[u8], b: &[u8], n: usize) -> bool
    ensures { result ≡ in_order n a.now b.now }
{
    n == 0 || text::compare(a, b) == Ordering::Less
}

// Whether the name [q..e) may follow n names, the last at prev, where names ascend.
fn ascends(s: &[u8], prev: usize, q: usize, e: usize, n: usize) -> bool
    requires { (prev ≤ length s.now) × (q ≤ e) × (e ≤ length s.now) }
    ensures { result ≡ in_order n (slice prev (prev + index_of comma (drop prev s.now)) s.now) (slice q e s.now) }
{
    let end = text::field_end(s, prev);
    in_order(&s[prev..end], &s[q..e], n)
}

// Whether the name at q, after n names, the last at prev, may stand there: if ORDERED, behind that one only.
#[tactic(auto, unfolding(crate::specs::Read::label_allowed))]
fn name_allowed<const ORDERED: bool>(s: &[u8], prev: usize, q: usize, n: usize) -> bool
    requires { (prev ≤ length s.now) × (q ≤ length s.now) }
    ensures { result ≡ label_allowed ORDERED s.now prev q n }
{
    let e = text::field_end(s, q);
    is_name(s, q, e) && (!ORDERED || ascends(s, prev, q, e, n))
}

// Labels from `at` to `!,`, if ORDERED in ascending order.
fn read_labels<const ORDERED: bool>(s: &[u8], at: usize) -> Option<usize>
    requires { at ≤ length s.now }
    ensures { LabelsRead ORDERED s.now at result }
{
    let mut prev = at;
    let mut q = at;
    // A name's end depends on the text, so no range gives the places. Only whether one stands before is asked of the count.
    let mut n = 0;
    while !is_field(s, q, CLOSE) {
        if !name_allowed::<ORDERED>(s, prev, q, n) {
            return None;
        }
        prev = q;
        q = next_field(s, q);
        n += 1;
    }
    Some(q + 2)
}

// `!,`, or `+,` labels `!,`: what stands behind the letter of a node type.
pub fn read_node<const ORDERED: bool>(s: &[u8], at: usize) -> Option<usize>
    ensures { NodeRead ORDERED s.now at result }
{
    if is_field(s, at, CLOSE) {
        return Some(at + 2);
    }
    if is_field(s, at, OPEN) {
        return read_labels::<ORDERED>(s, at + 2);
    }
    None
}

// `!,`, or `+,` and a name.
pub fn read_relationship(s: &[u8], at: usize) -> Option<usize>
    ensures { RelRead s.now at result }
{
    if is_field(s, at, CLOSE) {
        return Some(at + 2);
    }
    if !is_field(s, at, OPEN) {
        return None;
    }
    let e = text::field_end(s, at + 2);
    if is_name(s, at + 2, e) {
        return Some(e + 1);
    }
    None
}

// Whether the part of a type of kind k that ends at e may follow those before it.
fn part_allowed<F: Form>(s: &[u8], k: u8, before: Before, e: usize) -> bool
    requires { SomeSeen k s.now before × (before.to < e) × (e ≤ length s.now) }
    ensures { IsAllowed F.may k s.now before e result }
{
    match k {
        MAP => {
            let c = text::field_end(s, before.to);
            is_name(s, before.to, c) && F::name_may_follow(s, before, c)
        }
        UNION => F::member_may_follow(s, before, e),
        _ => true,
    }
}

// The type at `at`, of nesting at most `left`. (That the form says of each type what it says of its parts is asked of the caller and is no law of
// the trait: what an impl gives may cite specs/ alone, and these proofs stand in proofs/.)
pub fn read_type<F: Form>(s: &[u8], at: usize, left: usize) -> Option<usize>
    requires { (at ≤ length s.now) × FormLaws F.Fine F.Labels F.may F.enough true }
    ensures { TypeRead F.Fine s.now at left result }
{
    if left == 0 {
        return None;
    }
    let k = letter(s, at)?;
    match Content::of(k)? {
        Content::Nothing => return Some(at + 2),
        Content::Labels => return F::read_node(s, at + 2),
        Content::RelationshipName => return read_relationship(s, at + 2),
        Content::Types => {}
    }
    // As in `nesting_end`, no iterator counts the parts.
    let mut before = Before {
        from: at + 2,
        last: at + 2,
        to: at + 2,
        count: 0,
    };
    while part_follows(s, k, before.to, before.count) {
        let v = value_at(s, k, before.to);
        let e = read_type::<F>(s, v, left - 1)?;
        if !part_allowed::<F>(s, k, before, e) {
            return None;
        }
        before = Before {
            from: before.from,
            last: before.to,
            to: e,
            count: before.count + 1,
        };
    }
    if k == UNION && !F::is_enough(before.count) {
        return None;
    }
    Some(parts_end(k, before.to))
}
