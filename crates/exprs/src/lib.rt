// Expressions by construct (the arms of `infer_expr`): a module for each construct says what it keeps before its first child, what it
// does after a child, and its type and faults after the last: the length of the type at the front of the work area, and the faults added
// to the report. Which one serves a line is chosen in `infer`. That a type has room in the work area (`type_limit`) is asked at each, since
// the area is a slice of no one length (front.rt).
#![tactic(auto)]

mod call;
mod case;
mod comprehension;
mod front;
mod index;
mod leaf;
mod list;
mod map;
mod role;
mod rule;
mod state;
mod variable;

pub use call::end_call;
pub use case::{case_child, end_case, start_case};
pub use comprehension::{comprehension_child, end_comprehension, start_comprehension};
pub use front::{is_bool, put_letter, put_pair};
pub use index::{end_index, end_slice};
pub use leaf::constant;
pub use list::{end_list, list_item, start_list};
pub use map::{map_value, start_map};
pub use role::Role;
pub use rule::{Rule, role_of, rule_of};
pub use state::{Accumulator, keep_first, keep_two, start_empty};
pub use variable::var_type;
