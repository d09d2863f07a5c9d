// The running union in place: members one after the other at the front, ascending, with no `O,` before and no `!,` behind them.
ghost use Rattle.std.specs.Prelude.{◌≡◌, ◌+◌, ◌≤◌, length};
ghost use Rattle.ty.specs.Union.{Placing, Placed, Pending, InsertedAny, SomeMembers, Sized, Adding, AddedAll, AddedOpened, wrapped, Closing, Lined, Closed};

use crate::end::{fits, type_end};
use crate::keys::{head_of, is_below};
use crate::letters::{CLOSE, UNION};
use std::cmp::Ordering;
use text::COMMA;

// The types that are still to go in.
#[derive(Clone, Copy)]
struct Rest {
    from: usize,
    to: usize,
}

// Where the type [n..m) goes among the members [0..n), None if it is there already.
pub fn place(part: &[u8], n: usize, m: usize) -> Option<usize>
    requires { Placing part.now n m }
    ensures { Placed part.now n m result }
{
    let x = head_of(part, n, m);
    let mut q = 0;
    // A member ends where its line does: there is no index to count. (It shares the walk alone with `entry_spot`: where a part ends, what is
    // compared and what is answered differ, so that one walk would be lent three functions and be no shorter.)
    while q < n {
        let e = type_end(part, q);
        if is_below(part, q, n, x) {
            q = e;
        } else {
            match text::compare(&part[q..e], &part[n..m]) {
                Ordering::Less => {
                    q = e;
                }
                Ordering::Equal => {
                    return None;
                }
                Ordering::Greater => {
                    return Some(q);
                }
            }
        }
    }
    Some(n)
}

// Inserts the first of the types that are still to go in into the members before them.
fn add_next(part: &mut [u8], rest: Rest) -> Rest
    requires { Pending part.old rest.from rest.to }
    ensures { InsertedAny part.old part.new rest.from rest.to result }
{
    let n = rest.from;
    let m = type_end(part, n);
    match place(part, n, m) {
        Some(p) => {
            text::rotate(part, p, n, m);
            Rest {
                from: m,
                to: rest.to,
            }
        }
        None => {
            text::copy_in(part, m, n, rest.to - m);
            Rest {
                from: n,
                to: rest.to - (m - n),
            }
        }
    }
}

// The running union of `len` bytes, if it is not too long.
fn union_size(part: &[u8], len: usize) -> Option<usize>
    requires { SomeMembers part.now len }
    ensures { Sized part.now len result }
{
    if len + 4 <= semantics::TYPE_LIMIT {
        return Some(len);
    }
    if len > semantics::TYPE_LIMIT {
        return None;
    }
    if type_end(part, 0) < len {
        return None;
    }
    Some(len)
}

// Inserts the types [len..end) into the members [0..len). (Two lengths beside the part, here and in map.rt, and no struct: the part is lent
// from a work area anew for each call, and what comes back is one length.)
pub fn add_members(part: &mut [u8], len: usize, end: usize) -> Option<usize>
    requires { Adding part.old len end }
    ensures { AddedAll part.old part.new len end result }
{
    let mut rest = Rest { from: len, to: end };
    // Both ends move: the types that are there already leave the end nearer.
    while rest.from < rest.to {
        rest = add_next(part, rest);
    }
    union_size(part, rest.from)
}

// Inserts the type [len..end), flattened, into the members [0..len).
pub fn add_union(part: &mut [u8], len: usize, end: usize) -> Option<usize>
    requires { Placing part.old len end }
    ensures { AddedOpened part.old part.new len end result }
{
    if part[len] == UNION {
        let m = end - len - 4;
        text::copy_in(part, len + 2, len, m);
        return add_members(part, len, len + m);
    }
    add_members(part, len, end)
}

// Puts `O,` before and `!,` behind the members.
fn wrap_union(part: &mut [u8], len: usize) -> usize
    requires { len + 4 ≤ length part.old }
    ensures { (result ≡ len + 4) × (part.new ≡ wrapped len part.old) }
{
    text::slide_up(part, 0, 2, len);
    part[0] = UNION;
    part[1] = COMMA;
    part[len + 2] = CLOSE;
    part[len + 3] = COMMA;
    len + 4
}

// The members as a type line at the front: Unknown, the one member, or a union.
pub fn union_line(part: &mut [u8], len: usize) -> usize
    requires { Closing part.old len }
    ensures { Lined part.old part.new len result }
{
    if len == 0 {
        return text::append(part, 0, b"P,");
    }
    if type_end(part, 0) < len {
        return wrap_union(part, len);
    }
    len
}

// The same, tested.
pub fn close_union(part: &mut [u8], len: usize) -> Option<usize>
    requires { Closing part.old len }
    ensures { Closed part.old part.new len result }
{
    let n = union_line(part, len);
    fits(&part[..n]).then_some(n)
}
