// Labels in any order, with repeats, as a node type at the front of the work area: each goes to its place among those that stand there.
ghost use Rattle.std.specs.Prelude.{◌≡◌, ◌+◌, ◌≤◌, ◌<◌, length};
ghost use Rattle.old.specs.Make.{SomeLabel, LabelSpotted, LabelAdded, SomeNames, LabelsMade};

use crate::RegularType;
use std::cmp::Ordering;
use text::COMMA;
use ty::CLOSE;

// Where a label goes in the node type [0..n), None if it is there already: by halves of its bytes. The labels before lo come before it, those
// from hi on behind it.
fn label_spot(work: &[u8], n: usize, name: &[u8]) -> Option<usize>
    requires { SomeLabel work.now n name.now }
    ensures { LabelSpotted work.now n name.now result }
{
    let mut lo = 4;
    let mut hi = n - 2;
    // (`binary_search_by` takes elements of one size, and labels have many.)
    while lo < hi {
        let middle = lo + (hi - lo) / 2;
        let a = text::piece_start(work, lo, middle, COMMA);
        let c = text::field_end(work, a);
        match text::compare(&work[a..c], name) {
            Ordering::Less => {
                lo = c + 1;
            }
            Ordering::Equal => {
                return None;
            }
            Ordering::Greater => {
                hi = a;
            }
        }
    }
    Some(lo)
}

// One label more in the node type [0..n).
fn add_label(work: &mut [u8], n: usize, name: &[u8]) -> Option<usize>
    requires { SomeLabel work.old n name.now }
    ensures { LabelAdded work.old work.new n name.now result }
{
    match label_spot(work, n, name) {
        Some(p) => ty::insert_entry(work, n, n, p, name),
        None => Some(n),
    }
}

// The node type of the labels from `at` on.
pub fn regular_labels(s: &[u8], at: usize, work: &mut [u8]) -> Option<RegularType>
    requires { SomeNames s.now at × (3072 ≤ length work.old) }
    ensures { LabelsMade s.now work.old work.new at result }
{
    let mut n = text::append(work, 0, b"L,+,!,");
    let mut q = at;
    // (A label ends at its comma: there is no index to count.)
    while !ty::is_field(s, q, CLOSE) {
        let e = text::field_end(s, q);
        n = add_label(work, n, &s[q..e])?;
        q = e + 1;
    }
    Some(RegularType { end: q + 2, len: n })
}
