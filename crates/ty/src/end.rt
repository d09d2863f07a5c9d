// Where a type ends, and how deep it is nested.
ghost use Rattle.std.specs.Prelude.{◌≡◌, not, ◌+◌, ◌≤◌, ◌<◌, ◌^◌, length, drop, get_or};
ghost use Rattle.semantics.specs.Codes.{comma};
ghost use Rattle.text.specs.Text.{index_of};
ghost use Rattle.ty.specs.Parts.{TypeFrom, EndsAt};
ghost use Rattle.semantics.specs.Ty.{Ty, line, too_large};
ghost use Rattle.ty.specs.Read.{field_at, letter_at, content_of, goes_in, value_at, parts_end, NestingEnd};
ghost use Rattle.ty.specs.Skip.{opened_by, goes_on, next_field, SkipAt, Stepped};

use crate::letters::{
    ANY, BOOL, CLOSE, DATE, DATETIME, FLOAT, INT, LIST, MAP, NODE, NULL, NUM, PATH, RELATIONSHIP,
    STRING, UNION, UNKNOWN,
};
use text::COMMA;

// The field after the one at q. (`text::field_end` tests each place for the end of the slice: to make a map of 200 entries regular takes 30 %
// more instructions with it, and a union of 130 different members 39 %.)
pub fn next_field(s: &[u8], q: usize) -> usize
    requires { q + index_of comma (drop q s.now) < length s.now }
    ensures { result ≡ next_field s.now q }
{
    let mut i = q;
    while s[i] != COMMA {
        i += 1;
    }
    i + 1
}

// Brackets open behind a field that begins with c: K, L and O open one, `!` closes one.
#[tactic(auto, unfolding(crate::specs::Skip::opened_by))]
fn opened(c: u8, depth: usize) -> usize
    requires { (c ≡ 33 → 0 < depth) × (depth + 1 < 2 ^ 64) }
    ensures { result ≡ opened_by c depth }
{
    match c {
        CLOSE => depth - 1,
        MAP | NODE | UNION => depth + 1,
        _ => depth,
    }
}

// Whether the type goes on behind a field that begins with c.
#[tactic(auto, unfolding(crate::specs::Skip::goes_on))]
fn goes_on(c: u8, depth: usize) -> bool
    ensures { result ≡ goes_on c depth }
{
    c == LIST || depth > 0
}

// The end of the relationship type at q.
fn relationship_end(s: &[u8], q: usize) -> usize
    requires { SkipAt s.now q × (get_or s.now q 0 ≡ 77) }
    ensures { Stepped s.now q result }
{
    if s[q + 2] == CLOSE {
        return q + 4;
    }
    next_field(s, q + 4)
}

// The end of the field at q, of a relationship type the end of the type.
fn skip_field(s: &[u8], q: usize) -> usize
    requires { SkipAt s.now q }
    ensures { Stepped s.now q result }
{
    if s[q] == RELATIONSHIP {
        return relationship_end(s, q);
    }
    next_field(s, q)
}

// Where the type at `at` ends, field by field.
fn nested_end(s: &[u8], at: usize) -> usize
    requires { TypeFrom s.now at }
    ensures { EndsAt s.now at result }
{
    let mut q = at;
    let mut depth = 0;
    loop {
        let c = s[q];
        q = skip_field(s, q);
        depth = opened(c, depth);
        if !goes_on(c, depth) {
            return q;
        }
    }
}

// Where the type at `at` ends. A letter below that of lists is a whole type.
pub fn type_end(s: &[u8], at: usize) -> usize
    requires { TypeFrom s.now at }
    ensures { EndsAt s.now at result }
{
    let k = s[at];
    if k < LIST {
        return at + 2;
    }
    if k == RELATIONSHIP {
        return relationship_end(s, at);
    }
    nested_end(s, at)
}

// Whether the field at q is the one byte b.
#[tactic(auto, unfolding(crate::specs::Read::field_at, crate::specs::Read::letter_at))]
pub fn is_field(s: &[u8], q: usize, b: u8) -> bool
    ensures { result ≡ field_at s.now q b }
{
    letter(s, q) == Some(b)
}

// The letter that is the field at q, if it is one byte.
#[tactic(auto, unfolding(crate::specs::Read::letter_at), using(crate::proofs::Fields::letter_past))]
pub fn letter(s: &[u8], q: usize) -> Option<u8>
    ensures { result ≡ letter_at s.now q }
{
    (q < s.len() && s.len() - q >= 2 && s[q + 1] == COMMA).then(|| s[q])
}

// What stands behind the letter of a type.
#[derive(Clone, Copy, PartialEq, Eq)]
pub enum Content {
    Nothing,
    Labels,
    RelationshipName,
    Types,
}

impl Content {
    // What stands behind the letter k, None where k is no type's.
    #[tactic(auto, unfolding(crate::specs::Read::content_of, semantics::specs::Ty::letter, semantics::specs::Ty::base_in), using(crate::proofs::Fields::no_content))]
    pub fn of(k: u8) -> Option<Content>
        ensures { result ≡ content_of k }
    {
        match k {
            ANY => Some(Content::Nothing),
            NULL => Some(Content::Nothing),
            BOOL => Some(Content::Nothing),
            INT => Some(Content::Nothing),
            FLOAT => Some(Content::Nothing),
            NUM => Some(Content::Nothing),
            STRING => Some(Content::Nothing),
            DATE => Some(Content::Nothing),
            DATETIME => Some(Content::Nothing),
            LIST => Some(Content::Types),
            MAP => Some(Content::Types),
            NODE => Some(Content::Labels),
            RELATIONSHIP => Some(Content::RelationshipName),
            PATH => Some(Content::Nothing),
            UNION => Some(Content::Types),
            UNKNOWN => Some(Content::Nothing),
            _ => None,
        }
    }
}

// Whether a type follows at q inside a type of kind k, of which n were read: one in a list, and up to `!,` in a map or a union.
#[tactic(auto, unfolding(crate::specs::Read::goes_in))]
pub fn part_follows(s: &[u8], k: u8, q: usize, n: usize) -> bool
    ensures { result ≡ goes_in k s.now q n }
{
    if k == LIST {
        n == 0
    } else {
        !is_field(s, q, CLOSE)
    }
}

// Where the type of the part at q begins: behind the name of a map's entry.
#[tactic(auto, unfolding(crate::specs::Read::value_at))]
pub fn value_at(s: &[u8], k: u8, q: usize) -> usize
    requires { q ≤ length s.now }
    ensures { result ≡ value_at k s.now q }
{
    if k != MAP {
        return q;
    }
    s.len().min(text::field_end(s, q) + 1)
}

// Where a type of kind k ends whose parts end at q: a list does there, any other behind `!,`.
pub fn parts_end(k: u8, q: usize) -> usize
    requires { q + 2 < 2 ^ 64 }
    ensures { result ≡ parts_end k q }
{
    if k == LIST { q } else { q + 2 }
}

// Where the type at `at` ends, None where its nesting is above `left`. (A text and a place, here, in reader.rt and in form.rt, and no slice from there
// on: the answers are places in the same text, and what stands before is read again.)
pub fn nesting_end(s: &[u8], at: usize, left: usize) -> Option<usize>
    requires { TypeFrom s.now at }
    ensures { NestingEnd s.now at left result }
{
    if left == 0 {
        return None;
    }
    let k = s[at];
    let Some(Content::Types) = Content::of(k) else {
        return Some(type_end(s, at));
    };
    let mut q = at + 2;
    // A part ends where its type does, so no iterator counts the parts.
    let mut n = 0;
    while part_follows(s, k, q, n) {
        let v = value_at(s, k, q);
        q = nesting_end(s, v, left - 1)?;
        n += 1;
    }
    Some(parts_end(k, q))
}

// Whether a type line is not too large. (A nesting of n takes 2 * n bytes or more.)
pub fn fits(s: &[u8]) -> bool
    requires { TypeFrom s.now 0 }
    ensures { (t : Ty) → s.now ≡ line t → result ≡ not (too_large t) }
{
    if s.len() > semantics::TYPE_LIMIT {
        return false;
    }
    if s.len() <= 2 * semantics::NESTING_LIMIT {
        return true;
    }
    nesting_end(s, 0, semantics::NESTING_LIMIT).is_some()
}
