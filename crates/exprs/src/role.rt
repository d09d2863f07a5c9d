// What a child is to its expression: one whose type is only kept; one that must be a Bool; one whose type counts for a CASE.
#[derive(Clone, Copy, PartialEq, Eq)]
pub enum Role {
    Plain,
    Condition,
    Answer,
}
