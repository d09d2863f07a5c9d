// One line of a sheet under a cursor: the sheet and a place in it, which are two parameters. A struct of both, whose invariant is that the
// place is in the sheet, was tried where numbers are read: it is as fast and no plainer. With a lifetime it cannot be `Copy`, so each step
// makes one anew and lends it, and each function takes it apart into the same two; what goes is one clause. A field's shape and `l`, the line's second
// number, go with them where a field is read: only a bound asks for `l`, and a struct of both would be made for each field.
#![tactic(auto)]

mod field;
mod in_place;
mod kinds;
mod known;
mod line;
mod opening;
mod places;
mod quick;
mod rows;
mod shapes;
mod words;

pub use field::VarId;
pub use kinds::VarKind;
pub use known::{Bound, bound_at, kind_of};
pub use line::{BadLine, Head, HirId, known_line, read_line};
pub use opening::{Opening, line_behind, opening_of};
pub use places::Place;
pub use rows::{Row, Under, is_leaf, place_of, row_of};
pub use shapes::Shape;
pub use words::Word;
