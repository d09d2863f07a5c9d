// Forms of type lines: what a reader asks of the parts of a type besides how they are written. (A text and places in it, and no slices: see
// `nesting_end` in end.rt.)
ghost use Rattle.std.specs.Prelude.{◌≡◌, List, Bool, true, ℕ, ◌≤◌, ◌<◌, length};
ghost use Rattle.semantics.specs.Codes.{map_letter, union_letter};
ghost use Rattle.semantics.specs.Bytes.{Bytes};
ghost use Rattle.semantics.specs.Ty.{Ty, labels_to};
ghost use Rattle.semantics.specs.Named.{Maybe};
ghost use Rattle.ty.specs.Read.{ReadsTo};
ghost use Rattle.ty.specs.Form.{May, SomeSeen, MayFollow};

// The parts of a type before one: `count` of them at [from..to), the last one from `last` on.
#[derive(Clone, Copy)]
pub struct Before {
    pub from: usize,
    pub last: usize,
    pub to: usize,
    pub count: usize,
}

pub trait Form {
    // The types and the labels that it accepts.
    ghost Fine: { Ty → Type 0 };

    ghost Labels: { List Bytes → Type 0 };

    // Whether a part may follow others, by their keys, and whether a union may have so few members.
    ghost may: { May };

    ghost enough: { ℕ → Bool };

    // What stands behind the letter of a node type.
    fn read_node(s: &[u8], at: usize) -> Option<usize>
        ensures { ReadsTo labels_to (Maybe Labels) s.now at result };

    // Whether the name that ends at e may follow these entries of a map.
    fn name_may_follow(s: &[u8], before: Before, e: usize) -> bool
        requires { SomeSeen map_letter s.now before × (before.to ≤ e) × (e ≤ length s.now) }
        ensures { MayFollow may map_letter s.now before e result };

    // Whether the member that ends at e may follow these members of a union.
    fn member_may_follow(s: &[u8], before: Before, e: usize) -> bool
        requires { SomeSeen union_letter s.now before × (before.to < e) × (e ≤ length s.now) }
        ensures { MayFollow may union_letter s.now before e result };

    // Whether a union may have only n members.
    fn is_enough(n: usize) -> bool
        ensures { result ≡ enough n };
}
