// The types of a sheet's expressions (infer.rs).
#![tactic(auto)]

mod statement;
mod step;
mod walk;

pub use statement::check_statement;
pub use step::{Env, Sheet};
pub use walk::TooLarge;
