// The built-in functions (builtins.rs): a table of name, argument shape and return shape.
#![tactic(auto)]

mod shapes;

ghost use Rattle.std.specs.Prelude.{◌≡◌, [], ◌∷◌, map};
ghost use Rattle.semantics.specs.Builtins.{signature, lookup};
ghost use Rattle.text.specs.Text.{digit_of};
ghost use Rattle.builtins.specs.Rows.{shape_of, return_of, builtin_of, found_of, SomeFirst, Resolved};

pub use shapes::{ArgShape, FixedTy, ReturnShape};

#[derive(Clone, Copy, Debug, PartialEq, Eq)]
pub enum Builtin {
    Id,
    Size,
    Head,
    Tail,
    Last,
    Keys,
    Values,
}

const BUILTINS: [Builtin; 7] = [
    Builtin::Id,
    Builtin::Size,
    Builtin::Head,
    Builtin::Tail,
    Builtin::Last,
    Builtin::Keys,
    Builtin::Values,
];

#[tactic(auto, unfolding(semantics::specs::Builtins::signature, semantics::specs::Bytes::text))]
impl Builtin {
    // The name, in lower case.
    pub fn name(self) -> &'static [u8]
        ensures { result.now ≡ (signature (builtin_of self)).name }
    {
        match self {
            Builtin::Id => b"id",
            Builtin::Size => b"size",
            Builtin::Head => b"head",
            Builtin::Tail => b"tail",
            Builtin::Last => b"last",
            Builtin::Keys => b"keys",
            Builtin::Values => b"values",
        }
    }

    // The shape of the one parameter.
    pub fn param(self) -> ArgShape
        ensures { shape_of result ∷ [] ≡ (signature (builtin_of self)).params }
    {
        match self {
            Builtin::Id => ArgShape::GraphEntity,
            Builtin::Size => ArgShape::ListOrString,
            Builtin::Head => ArgShape::List,
            Builtin::Tail => ArgShape::List,
            Builtin::Last => ArgShape::List,
            Builtin::Keys => ArgShape::GraphEntityOrMap,
            Builtin::Values => ArgShape::Map,
        }
    }

    // What the function returns.
    pub fn ret(self) -> ReturnShape
        ensures { return_of result ≡ (signature (builtin_of self)).ret }
    {
        match self {
            Builtin::Id => ReturnShape::Fixed(FixedTy::Int),
            Builtin::Size => ReturnShape::Fixed(FixedTy::Int),
            Builtin::Head => ReturnShape::ListElement,
            Builtin::Tail => ReturnShape::ListSelf,
            Builtin::Last => ReturnShape::ListElement,
            Builtin::Keys => ReturnShape::Fixed(FixedTy::ListString),
            Builtin::Values => ReturnShape::Fixed(FixedTy::ListAny),
        }
    }
}

// The function that a name in hexadecimal spells, ignoring ASCII case.
pub fn lookup(hex: &[u8]) -> Option<Builtin>
    ensures { found_of result ≡ lookup (map digit_of hex.now) }
{
    BUILTINS
        .iter()
        .copied()
        .find(|b| text::same_hex_fold(hex, b.name()))
}
