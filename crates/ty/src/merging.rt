// Merging of two lists of names, each ended by `!`: label sets, and the entries of maps. Both stand below `to`; what is kept of them goes to `to`.
// (The operands stand in the same slice as what is kept, so `s` and `to` are no struct: it would lend the slice for as long as it lives.)
ghost use Rattle.std.specs.Prelude.{◌≡◌, ◌+◌, ◌≤◌, ◌<◌, ◌^◌, length, IfSome};
ghost use Rattle.semantics.specs.Limits.{type_limit};
ghost use Rattle.ty.specs.Merging.{SomeHead, NextIs, SomeName, NameLong, kept_of, kept_text, taken_at, moved, Few, Taking, closed_of, closed_text};

use crate::letters::CLOSE;
use std::cmp::Ordering;

// Where each list goes on, and how long the line is that is kept (None: over).
#[derive(Clone, Copy)]
pub struct Merge {
    pub p: usize,
    pub q: usize,
    pub n: Option<usize>,
}

// Which of two lists has a name: the one at p, the one at q, or both.
#[derive(Clone, Copy, PartialEq, Eq)]
pub enum Side {
    First,
    Second,
    Both,
}

// Whose name comes next of those at p and q, None where none is left. `!` ends either list.
pub fn next_name(s: &[u8], p: usize, q: usize) -> Option<Side>
    requires { SomeHead s.now p × SomeHead s.now q }
    ensures { NextIs s.now p q result }
{
    if s[p] == CLOSE {
        if s[q] == CLOSE {
            return None;
        }
        return Some(Side::Second);
    }
    if s[q] == CLOSE {
        return Some(Side::First);
    }
    let pe = text::field_end(s, p);
    let qe = text::field_end(s, q);
    match text::compare(&s[p..pe], &s[q..qe]) {
        Ordering::Less => Some(Side::First),
        Ordering::Equal => Some(Side::Both),
        Ordering::Greater => Some(Side::Second),
    }
}

// How long the name at `at` is, with its comma.
pub fn name_len(s: &[u8], at: usize) -> usize
    requires { SomeName s.now at }
    ensures { NameLong s.now at result }
{
    let e = text::field_end(s, at);
    e - at + 1
}

// What is kept of a line behind another k bytes and `!,`; None: over, nothing is kept from here on.
#[tactic(auto, unfolding(crate::specs::Merging::kept_of))]
pub fn kept(n: Option<usize>, k: usize) -> Option<usize>
    requires { IfSome n (λ m. m + k + 2 < 2 ^ 64) }
    ensures { result ≡ kept_of n k }
{
    let m = n? + k;
    (m + 2 <= semantics::TYPE_LIMIT).then_some(m)
}

// Keeps the bytes [from..from + k) at the end of the line of n bytes at `to`, if there is room.
#[tactic(auto, unfolding(crate::specs::Merging::kept_of, crate::specs::Merging::kept_text))]
pub fn keep(s: &mut [u8], from: usize, k: usize, to: usize, n: Option<usize>) -> Option<usize>
    requires { (from + k ≤ to) × (to + type_limit ≤ length s.old) × Few n }
    ensures { (result ≡ kept_of n k) × (s.new ≡ kept_text s.old from k to n) }
{
    let end = n?;
    let longer = kept(n, k)?;
    text::copy_in(s, from, to + end, k);
    Some(longer)
}

// Which of the two is taken: q's alone, or p's.
#[tactic(auto, unfolding(crate::specs::Merging::taken_at))]
pub fn taken(m: Merge, side: Side) -> usize
    ensures { result ≡ taken_at m side }
{
    match side {
        Side::First => m.p,
        Side::Second => m.q,
        Side::Both => m.p,
    }
}

// Takes k bytes of one list, or of both, which are the same.
#[tactic(auto, unfolding(crate::specs::Merging::moved))]
pub fn take(s: &mut [u8], m: Merge, side: Side, k: usize, to: usize) -> Merge
    requires { Taking s.old m side k to }
    ensures { (result ≡ moved m side k) × (s.new ≡ kept_text s.old (taken_at m side) k to m.n) }
{
    let from = taken(m, side);
    let n = keep(s, from, k, to, m.n);
    match side {
        Side::First => Merge {
            p: m.p + k,
            q: m.q,
            n,
        },
        Side::Second => Merge {
            p: m.p,
            q: m.q + k,
            n,
        },
        Side::Both => Merge {
            p: m.p + k,
            q: m.q + k,
            n,
        },
    }
}

// `!,` behind the n bytes at `to`, if they are not over.
#[tactic(auto, unfolding(crate::specs::Merging::closed_of, crate::specs::Merging::closed_text))]
pub fn close_line(s: &mut [u8], to: usize, n: Option<usize>) -> Option<usize>
    requires { (to + type_limit ≤ length s.old) × Few n }
    ensures { (result ≡ closed_of n) × (s.new ≡ closed_text s.old to n) }
{
    let n = n?;
    text::append(s, to + n, b"!,");
    Some(n + 2)
}
