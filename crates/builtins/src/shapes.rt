// What a built-in takes and what it returns (`ArgShape` and `ReturnShape` of builtins.rs).
ghost use Rattle.std.specs.Prelude.{◌≡◌};
ghost use Rattle.semantics.specs.Builtins.{describe};
ghost use Rattle.semantics.specs.Ty.{line};
ghost use Rattle.builtins.specs.Rows.{shape_of, shape_at, fixed_of, return_of, return_at, AcceptsKind, SomeFirst, ListAt, Resolved};

use ty::{ANY, LIST, MAP, NODE, PATH, RELATIONSHIP, STRING, UNKNOWN};

#[derive(Clone, Copy, Debug, PartialEq, Eq)]
pub enum ArgShape {
    Any,
    List,
    String,
    ListOrString,
    GraphEntity,
    Map,
    GraphEntityOrMap,
}

// The shape of a number, in the order above; of any greater one the last.
#[tactic(auto, unfolding(crate::specs::Rows::shape_at))]
impl From<usize> for ArgShape {
    ghost from_gives = { λ n shape. shape_of shape ≡ shape_at n };

    fn from(number: usize) -> ArgShape {
        match number {
            0 => ArgShape::Any,
            1 => ArgShape::List,
            2 => ArgShape::String,
            3 => ArgShape::ListOrString,
            4 => ArgShape::GraphEntity,
            5 => ArgShape::Map,
            _ => ArgShape::GraphEntityOrMap,
        }
    }
}

impl ArgShape {
    // Whether the types of kind k are permitted; Any and Unknown always are.
    pub fn accepts(self, k: u8) -> bool
        ensures { AcceptsKind self k result }
    {
        match self {
            ArgShape::Any => true,
            ArgShape::List => [LIST, ANY, UNKNOWN].contains(&k),
            ArgShape::String => [STRING, ANY, UNKNOWN].contains(&k),
            ArgShape::ListOrString => [LIST, STRING, ANY, UNKNOWN].contains(&k),
            ArgShape::GraphEntity => [NODE, RELATIONSHIP, PATH, ANY, UNKNOWN].contains(&k),
            ArgShape::Map => [MAP, ANY, UNKNOWN].contains(&k),
            ArgShape::GraphEntityOrMap => [NODE, RELATIONSHIP, MAP, ANY, UNKNOWN].contains(&k),
        }
    }

    // What was expected, in words.
    #[tactic(auto, unfolding(semantics::specs::Builtins::describe, semantics::specs::Bytes::text))]
    pub fn describe(self) -> &'static [u8]
        ensures { result.now ≡ describe (shape_of self) }
    {
        match self {
            ArgShape::Any => b"Any",
            ArgShape::List => b"List",
            ArgShape::String => b"String",
            ArgShape::ListOrString => b"List | String",
            ArgShape::GraphEntity => b"Node | Relationship | Path",
            ArgShape::Map => b"Map",
            ArgShape::GraphEntityOrMap => b"Node | Relationship | Map",
        }
    }
}

// The types that the table names.
#[derive(Clone, Copy, Debug, PartialEq, Eq)]
pub enum FixedTy {
    Int,
    ListString,
    ListAny,
}

impl FixedTy {
    // Its type line.
    #[tactic(auto, unfolding(semantics::specs::Ty::line, semantics::specs::Ty::line_to, semantics::specs::Ty::letter))]
    fn line(self) -> &'static [u8]
        ensures { result.now ≡ line (fixed_of self) }
    {
        match self {
            FixedTy::Int => b"D,",
            FixedTy::ListString => b"J,G,",
            FixedTy::ListAny => b"J,A,",
        }
    }
}

#[derive(Clone, Copy, Debug, PartialEq, Eq)]
pub enum ReturnShape {
    Fixed(FixedTy),
    ListElement,
    ListSelf,
}

// What the number of a return shape says: the fixed types, the element, and of any greater number the list itself.
#[tactic(auto, unfolding(crate::specs::Rows::return_at))]
impl From<u8> for ReturnShape {
    ghost from_gives = { λ n shape. return_of shape ≡ return_at n };

    fn from(number: u8) -> ReturnShape {
        match number {
            0 => ReturnShape::Fixed(FixedTy::Int),
            1 => ReturnShape::Fixed(FixedTy::ListString),
            2 => ReturnShape::Fixed(FixedTy::ListAny),
            3 => ReturnShape::ListElement,
            _ => ReturnShape::ListSelf,
        }
    }
}

impl ReturnShape {
    // The return type at the front, where the first argument's type stands, if there is one: so many bytes.
    // (That it stands there is asked, as the area is that of whoever lends it.)
    pub fn resolve(self, part: &mut [u8], first: Option<usize>) -> usize
        requires { SomeFirst part.old first }
        ensures { Resolved self part.old part.new first result }
    {
        match self {
            ReturnShape::Fixed(t) => text::append(part, 0, t.line()),
            ReturnShape::ListElement => list_element(part, first),
            ReturnShape::ListSelf => list_self(part, first),
        }
    }
}

// How long the first argument's type is, where it is a list.
fn list_len(part: &[u8], first: Option<usize>) -> Option<usize>
    requires { SomeFirst part.now first }
    ensures { ListAt part.now first result }
{
    let len = first?;
    (part[0] == LIST).then_some(len)
}

// The element of a list type, to the front; Any of another type or none.
fn list_element(part: &mut [u8], first: Option<usize>) -> usize
    requires { SomeFirst part.old first }
    ensures { Resolved ReturnShape.ListElement part.old part.new first result }
{
    let Some(len) = list_len(part, first) else {
        return text::append(part, 0, b"A,");
    };
    let n = ty::element(&part[..len]).len();
    text::copy_in(part, 2, 0, n);
    n
}

// The list type itself; a list of Any of another type or none.
fn list_self(part: &mut [u8], first: Option<usize>) -> usize
    requires { SomeFirst part.old first }
    ensures { Resolved ReturnShape.ListSelf part.old part.new first result }
{
    let Some(len) = list_len(part, first) else {
        return text::append(part, 0, b"J,A,");
    };
    len
}
