// Type lines (ty.rs): where a type ends, its size, the reader of each form and the strict form, the running union, map entries, label sets, type names.
#![tactic(auto)]

mod end;
mod form;
mod keys;
mod label_sets;
mod letters;
mod map;
mod merging;
mod names;
mod reader;
mod strict;
mod union;

ghost use Rattle.std.specs.Prelude.{◌≡◌};
ghost use Rattle.semantics.specs.Ty.{Ty, t_list, line};
ghost use Rattle.ty.specs.Read.{ListLine};

pub use end::{
    Content, fits, is_field, letter, nesting_end, part_follows, parts_end, type_end, value_at,
};
pub use form::{Before, Form};
pub use label_sets::merge_labels;
pub use letters::{
    ANY, BOOL, CLOSE, FLOAT, INT, LIST, MAP, NODE, NULL, NUM, OPEN, PATH, RELATIONSHIP, STRING,
    UNION, UNKNOWN,
};
pub use map::{Spot, entry_spot, insert_entry, put_entry};
pub use merging::{Merge, Side, close_line, keep, kept, name_len, next_name, take, taken};
pub use names::type_name;
pub use reader::{is_name, read_node, read_relationship, read_type};
pub use strict::is_type_line;
pub use union::{add_members, add_union, close_union};

// The element of a list type: that part of its line.
pub fn element(s: &[u8]) -> &[u8]
    requires { ListLine s.now }
    ensures { (t : Ty) → s.now ≡ line (t_list t) → result.now ≡ line t }
{
    &s[2..]
}
