// The table of words: where each may stand, its fields, and what hangs below its line.
ghost use Rattle.std.specs.Prelude.{◌≡◌, true, map};
ghost use Rattle.semantics.specs.Sheet.{row, nothing};
ghost use Rattle.line.specs.Words.{word_of, place_of, field_of, under_of};
ghost use Rattle.line.specs.Rows.{RowAs};

use crate::places::Place;
use crate::shapes::Shape;
use crate::words::Word;

// What hangs below a line. An index says which of the line's numbers a count is, or a flag that one expression more hangs there.
#[derive(Clone, Copy, PartialEq, Eq)]
pub enum Under {
    Nothing,
    // Two expressions.
    Two,
    // A list and its bounds: one more expression for each bit of the first number.
    Bounds,
    // The arms of a CASE, two expressions each, as many as the second number says; one more expression for each bit of the first.
    Arms,
    // One line of a place.
    One(Place),
    // So many as the number at the index.
    Times(u8, Place),
    // Likewise, and then an expression where the flag is set.
    TimesThen(u8, Place, u8),
    // One line of a place, an expression where the flag is set, an expression.
    Around(Place, u8),
    // An expression, and one more where the flag is set.
    OneThen(u8),
    // An expression, and so many lines of a place as the number at the index.
    OneTimes(u8, Place),
}

// A word's row: where its line may stand, the shapes of its fields in order, and what hangs below.
#[derive(Clone, Copy)]
pub struct Row {
    pub place: Place,
    pub fields: &'static [Shape],
    pub under: Under,
}

const COUNT: Shape = Shape::Range(0, semantics::COUNT_LIMIT);

// A word's row. Made by tools/line_table.py. Inlined, as `word_of` is, so that a code leads to its row at once.
#[tactic(auto, unfolding(semantics::specs::Sheet::row))]
#[inline(always)]
pub fn row_of(word: Word) -> &'static Row
    ensures { RowAs (row (word_of word)) result.now }
{
    match word {
        Word::Cyrs => &Row {
            place: Place::First,
            fields: &[Shape::Range(1, 1)],
            under: Under::Nothing,
        },
        Word::B => &Row {
            place: Place::Binding,
            fields: &[Shape::Variable, Shape::Letter],
            under: Under::Nothing,
        },
        Word::End => &Row {
            place: Place::End,
            fields: &[],
            under: Under::Nothing,
        },
        Word::Mat => &Row {
            place: Place::Clause,
            fields: &[Shape::Range(0, 1)],
            under: Under::One(Place::Parts),
        },
        Word::Cre => &Row {
            place: Place::Clause,
            fields: &[],
            under: Under::One(Place::Parts),
        },
        Word::Mer => &Row {
            place: Place::Clause,
            fields: &[],
            under: Under::One(Place::Parts),
        },
        Word::Whe => &Row {
            place: Place::Clause,
            fields: &[],
            under: Under::One(Place::Expression),
        },
        Word::Wit => &Row {
            place: Place::Clause,
            fields: &[Shape::Range(0, 1), COUNT],
            under: Under::TimesThen(1, Place::Projection, 0),
        },
        Word::Ret => &Row {
            place: Place::Clause,
            fields: &[Shape::Range(0, 1), COUNT],
            under: Under::Times(1, Place::Projection),
        },
        Word::Unw => &Row {
            place: Place::Clause,
            fields: &[Shape::Variable],
            under: Under::One(Place::Expression),
        },
        Word::Set => &Row {
            place: Place::Clause,
            fields: &[COUNT],
            under: Under::Times(0, Place::SetItem),
        },
        Word::Rem => &Row {
            place: Place::Clause,
            fields: &[COUNT],
            under: Under::Times(0, Place::RemoveItem),
        },
        Word::Del => &Row {
            place: Place::Clause,
            fields: &[Shape::Range(0, 1), COUNT],
            under: Under::Times(1, Place::Expression),
        },
        Word::Cal => &Row {
            place: Place::Clause,
            fields: &[Shape::Name, Shape::Range(0, 1), COUNT],
            under: Under::Times(1, Place::Expression),
        },
        Word::Pro => &Row {
            place: Place::Projection,
            fields: &[Shape::Alias],
            under: Under::One(Place::Expression),
        },
        Word::Sp => &Row {
            place: Place::SetItem,
            fields: &[Shape::Name],
            under: Under::Two,
        },
        Word::Sl => &Row {
            place: Place::SetItem,
            fields: &[Shape::Variable, COUNT],
            under: Under::Times(0, Place::Label),
        },
        Word::Sm => &Row {
            place: Place::SetItem,
            fields: &[Shape::Variable, Shape::Range(0, 1)],
            under: Under::One(Place::Expression),
        },
        Word::Rp => &Row {
            place: Place::RemoveItem,
            fields: &[Shape::Name],
            under: Under::One(Place::Expression),
        },
        Word::Rl => &Row {
            place: Place::RemoveItem,
            fields: &[Shape::Variable, COUNT],
            under: Under::Times(0, Place::Label),
        },
        Word::Lab => &Row {
            place: Place::Label,
            fields: &[Shape::Name],
            under: Under::Nothing,
        },
        Word::Parts => &Row {
            place: Place::Parts,
            fields: &[COUNT],
            under: Under::Times(0, Place::Part),
        },
        Word::Part => &Row {
            place: Place::Part,
            fields: &[Shape::Optional, Shape::Range(0, 2), COUNT],
            under: Under::Times(1, Place::Element),
        },
        Word::Nod => &Row {
            place: Place::Element,
            fields: &[Shape::Optional, Shape::Range(0, 1), COUNT],
            under: Under::TimesThen(1, Place::Label, 0),
        },
        Word::Rel => &Row {
            place: Place::Element,
            fields: &[
                Shape::Optional,
                Shape::Range(0, 2),
                Shape::Range(0, 1),
                Shape::Bound,
                Shape::Bound,
                Shape::Range(0, 1),
                COUNT,
            ],
            under: Under::TimesThen(5, Place::Label, 4),
        },
        Word::Null => &Row {
            place: Place::Expression,
            fields: &[],
            under: Under::Nothing,
        },
        Word::Bool => &Row {
            place: Place::Expression,
            fields: &[Shape::Range(0, 1)],
            under: Under::Nothing,
        },
        Word::Int => &Row {
            place: Place::Expression,
            fields: &[Shape::Signed],
            under: Under::Nothing,
        },
        Word::Flt => &Row {
            place: Place::Expression,
            fields: &[Shape::Float],
            under: Under::Nothing,
        },
        Word::Str => &Row {
            place: Place::Expression,
            fields: &[Shape::Name],
            under: Under::Nothing,
        },
        Word::Var => &Row {
            place: Place::Expression,
            fields: &[Shape::Variable],
            under: Under::Nothing,
        },
        Word::Par => &Row {
            place: Place::Expression,
            fields: &[Shape::Name],
            under: Under::Nothing,
        },
        Word::Unr => &Row {
            place: Place::Expression,
            fields: &[Shape::Name],
            under: Under::Nothing,
        },
        Word::Exi => &Row {
            place: Place::Expression,
            fields: &[],
            under: Under::Nothing,
        },
        Word::Prop => &Row {
            place: Place::Expression,
            fields: &[Shape::Name],
            under: Under::One(Place::Expression),
        },
        Word::Idx => &Row {
            place: Place::Expression,
            fields: &[],
            under: Under::Two,
        },
        Word::Sli => &Row {
            place: Place::Expression,
            fields: &[Shape::Range(0, 3)],
            under: Under::Bounds,
        },
        Word::Lis => &Row {
            place: Place::Expression,
            fields: &[COUNT],
            under: Under::Times(0, Place::Expression),
        },
        Word::Map => &Row {
            place: Place::Expression,
            fields: &[COUNT],
            under: Under::Times(0, Place::Entry),
        },
        Word::Key => &Row {
            place: Place::Entry,
            fields: &[Shape::Name],
            under: Under::One(Place::Expression),
        },
        Word::Call => &Row {
            place: Place::Expression,
            fields: &[Shape::Name, Shape::Range(0, 1), COUNT],
            under: Under::Times(1, Place::Expression),
        },
        Word::Bin => &Row {
            place: Place::Expression,
            fields: &[Shape::Range(0, 19)],
            under: Under::Two,
        },
        Word::Una => &Row {
            place: Place::Expression,
            fields: &[Shape::Range(0, 1)],
            under: Under::One(Place::Expression),
        },
        Word::Case => &Row {
            place: Place::Expression,
            fields: &[Shape::Range(0, 3), COUNT],
            under: Under::Arms,
        },
        Word::Isn => &Row {
            place: Place::Expression,
            fields: &[Shape::Range(0, 1)],
            under: Under::One(Place::Expression),
        },
        Word::In => &Row {
            place: Place::Expression,
            fields: &[],
            under: Under::Two,
        },
        Word::Pat => &Row {
            place: Place::Expression,
            fields: &[],
            under: Under::One(Place::Parts),
        },
        Word::Lcp => &Row {
            place: Place::Expression,
            fields: &[Shape::Variable, Shape::Range(0, 1)],
            under: Under::Around(Place::Expression, 0),
        },
        Word::Pcp => &Row {
            place: Place::Expression,
            fields: &[Shape::Range(0, 1)],
            under: Under::Around(Place::Parts, 0),
        },
        Word::Lpr => &Row {
            place: Place::Expression,
            fields: &[Shape::Range(0, 3), Shape::Variable, Shape::Range(0, 1)],
            under: Under::OneThen(1),
        },
        Word::Mpr => &Row {
            place: Place::Expression,
            fields: &[COUNT],
            under: Under::OneTimes(0, Place::Item),
        },
        Word::Cop => &Row {
            place: Place::Item,
            fields: &[Shape::Name],
            under: Under::Nothing,
        },
        Word::Com => &Row {
            place: Place::Item,
            fields: &[Shape::Name],
            under: Under::One(Place::Expression),
        },
        Word::Sho => &Row {
            place: Place::Item,
            fields: &[Shape::Variable, Shape::Name],
            under: Under::Nothing,
        },
        Word::Ali => &Row {
            place: Place::Item,
            fields: &[Shape::Name],
            under: Under::One(Place::Expression),
        },
    }
}

// Where the word may stand.
#[inline(always)]
pub fn place_of(word: Word) -> Place
    ensures { place_of result ≡ (row (word_of word)).place }
{
    row_of(word).place
}

// Whether nothing can stand below the word's line.
#[inline(always)]
pub fn is_leaf(word: Word) -> bool
    ensures { result ≡ true → (row (word_of word)).under ≡ nothing }
{
    row_of(word).under == Under::Nothing
}
