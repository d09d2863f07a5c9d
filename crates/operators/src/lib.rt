// Operators and IN: the ends of expressions over two operands, and what is required of an operand.
#![tactic(auto)]

mod membership;
mod need;
mod operators;

pub use membership::check_in_list;
pub use need::{Need, require};
pub use operators::{infer_binop, infer_unaryop};
