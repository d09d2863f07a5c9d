// Where a line may stand. Made by tools/line_table.py.
#[derive(Clone, Copy, PartialEq, Eq)]
pub enum Place {
    First,
    Binding,
    Clause,
    End,
    Projection,
    SetItem,
    RemoveItem,
    Label,
    Parts,
    Part,
    Element,
    Entry,
    Item,
    Expression,
}
