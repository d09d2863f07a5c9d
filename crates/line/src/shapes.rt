// What a field may be: a number from the first to the second; a variable, one that may be absent; a name, one that may be absent; a
// bound; the letter of a binding; a signed number; the digits of a float.
#[derive(Clone, Copy, PartialEq, Eq)]
pub enum Shape {
    Range(u64, u64),
    Variable,
    Optional,
    Name,
    Alias,
    Bound,
    Letter,
    Signed,
    Float,
}
