// Label sets merged (LabelSet in ty.rs, unify_label_sets in unify.rs).
ghost use Rattle.semantics.specs.Limits.{type_limit};
ghost use Rattle.ty.specs.Merging.{SomeLabels, MergedLabels};
ghost use Rattle.std.specs.Prelude.{◌+◌, ◌≤◌, length};

use crate::merging::{Merge, close_line, name_len, next_name, take, taken};

// The labels of the node types at a and b, merged, as a node type at `to`.
pub fn merge_labels(s: &mut [u8], a: usize, b: usize, to: usize) -> Option<usize>
    requires { SomeLabels s.old a to × SomeLabels s.old b to × (to + type_limit ≤ length s.old) }
    ensures { MergedLabels s.old s.new a b to result }
{
    text::copy_in(s, a, to, 4);
    let mut m = Merge {
        p: a + 4,
        q: b + 4,
        n: Some(4),
    };
    // (The slice is written in each turn: no iterator can hold it.)
    while let Some(side) = next_name(s, m.p, m.q) {
        let k = name_len(s, taken(m, side));
        m = take(s, m, side, k, to);
    }
    close_line(s, to, m.n)
}
