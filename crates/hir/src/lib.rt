// A sheet under a cursor: whether it is whole (refusals 3, 4 and 5).
#![tactic(auto)]

mod bind;
mod valid;

pub use bind::bind_kind;
pub use valid::{Kids, Next, Outline, check_sheet, kids_of, next_line};
