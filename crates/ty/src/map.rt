// Entries of map lines: the insertion of an entry (BTreeMap::insert in infer.rs).
ghost use Rattle.std.specs.Prelude.{◌≡◌, ◌+◌, ◌≤◌, length};
ghost use Rattle.semantics.specs.Limits.{type_limit};
ghost use Rattle.ty.specs.Entry.{SomeMap, Spotted, Fronted, inserted_at, replaced_at, FrontOf, TestedAs, Entering, Entered};

use crate::end::{fits, next_field, type_end};
use crate::keys::{is_name_below, name_key};
use std::cmp::Ordering;
use text::COMMA;

// Where an entry goes, or the value of the entry that has its name: as std's `Entry`, and no `Result`, since neither is a failure.
#[derive(Drop)]
pub enum Spot {
    New(usize),
    Old { value: usize, end: usize },
}

// Where the entry of a name goes in the map line [0..len).
pub fn entry_spot(part: &[u8], len: usize, name: &[u8]) -> Spot
    requires { SomeMap part.now len name.now }
    ensures { Spotted part.now len name.now result }
{
    let last = len - 2;
    let low = name_key(name);
    let mut q = 2;
    // An entry ends where its type does: there is no index to count.
    while q < last {
        let v = next_field(part, q);
        let e = type_end(part, v);
        if is_name_below(part, q, name, low) {
            q = e;
        } else {
            let c = text::field_end(part, q);
            match text::compare(&part[q..c], name) {
                Ordering::Less => {
                    q = e;
                }
                Ordering::Equal => {
                    return Spot::Old { value: v, end: e };
                }
                Ordering::Greater => {
                    return Spot::New(q);
                }
            }
        }
    }
    Spot::New(last)
}

// The entry at p: room for the name, the name, and the value [len..end) behind it. (Lengths beside the part: see `add_members`.)
pub fn insert_entry(part: &mut [u8], len: usize, end: usize, p: usize, name: &[u8]) -> Option<usize>
    requires { (p ≤ len) × (len ≤ end) × (end ≤ length part.old) × (type_limit ≤ length part.old) }
    ensures { Fronted part.old part.new (inserted_at part.old len end p name.now) result }
{
    let k = name.len() + 1;
    if end + k > semantics::TYPE_LIMIT {
        return None;
    }
    text::slide_up(part, p, p + k, end - p);
    let c = text::append(part, p, name);
    part[c] = COMMA;
    // (Behind a label, which `old` inserts too, no value stands: then no bytes change places.)
    if len < end {
        text::rotate(part, p + k, len + k, end + k);
    }
    Some(end + k)
}

// The value [len..end) in place of the value [v..e).
pub fn replace_value(part: &mut [u8], len: usize, end: usize, v: usize, e: usize) -> Option<usize>
    requires { (v ≤ e) × (e ≤ len) × (len ≤ end) × (end ≤ length part.old) }
    ensures { Fronted part.old part.new (replaced_at part.old len end v e) result }
{
    let n = end - (e - v);
    if n > semantics::TYPE_LIMIT {
        return None;
    }
    text::rotate(part, e, len, end);
    text::copy_in(part, e, v, end - e);
    Some(n)
}

// What was made at the front, if it is not too large.
pub fn tested(part: &[u8], made: Option<usize>) -> Option<usize>
    requires { FrontOf part.now made }
    ensures { TestedAs part.now made result }
{
    let n = made?;
    fits(&part[..n]).then_some(n)
}

// Inserts the entry of a name with the value [len..end) into the map line [0..len).
pub fn put_entry(part: &mut [u8], len: usize, end: usize, name: &[u8]) -> Option<usize>
    requires { Entering part.old len end name.now }
    ensures { Entered part.old part.new len end name.now result }
{
    match entry_spot(part, len, name) {
        Spot::New(p) => {
            let made = insert_entry(part, len, end, p, name);
            tested(part, made)
        }
        Spot::Old { value, end: e } => {
            let made = replace_value(part, len, end, value, e);
            tested(part, made)
        }
    }
}
