// Old type lines made regular: the reader of the loose form, and the regular line of what it accepts.
#![tactic(auto)]

mod call;
mod labels;
mod making;
mod reader;

pub use call::regular_line;

// Where an old type ends, and how long the regular one is.
#[derive(Clone, Copy)]
pub struct RegularType {
    pub end: usize,
    pub len: usize,
}
