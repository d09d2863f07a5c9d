// Which construct a line is, by the rule of its word, and the roles of its children.
ghost use Rattle.std.specs.Prelude.{◌≡◌, ◌<◌, get_or};
ghost use Rattle.semantics.specs.Bytes.{Bytes};
ghost use Rattle.semantics.specs.Sheet.{Head as Line, plain, row, roles, arity};
ghost use Rattle.line.specs.Words.{word_of};
ghost use Rattle.line.specs.Line.{HeadIs};
ghost use Rattle.exprs.specs.Rules.{line_rule, child_role};

use crate::case::case_role;
use crate::comprehension::comprehension_role;
use crate::role::Role;
use line::{Head, Word};

// How a line is typed: by the construct of its expression; a line that has no type; an entry, which has that of the expression behind it.
#[derive(Clone, Copy, PartialEq, Eq)]
pub enum Rule {
    Constant,
    Variable,
    Element,
    Slice,
    Listing,
    Mapping,
    Call,
    Operator,
    Unary,
    Casing,
    Membership,
    Comprehension,
    Silent,
    Entry,
}

// The rule of a word.
#[tactic(auto, unfolding(semantics::specs::Sheet::row, crate::specs::Rules::line_rule, crate::specs::Rules::typing_rule))]
pub fn rule_of(word: Word) -> Rule
    ensures { result ≡ line_rule (row (word_of word)).rule }
{
    match word {
        Word::Null | Word::Bool | Word::Int | Word::Flt | Word::Str => Rule::Constant,
        Word::Par | Word::Unr | Word::Exi | Word::Prop | Word::Isn => Rule::Constant,
        Word::Pat | Word::Lpr | Word::Mpr => Rule::Constant,
        Word::Var => Rule::Variable,
        Word::Idx => Rule::Element,
        Word::Sli => Rule::Slice,
        Word::Lis => Rule::Listing,
        Word::Map => Rule::Mapping,
        Word::Key => Rule::Entry,
        Word::Call => Rule::Call,
        Word::Bin => Rule::Operator,
        Word::Una => Rule::Unary,
        Word::Case => Rule::Casing,
        Word::In => Rule::Membership,
        Word::Lcp | Word::Pcp => Rule::Comprehension,
        _ => Rule::Silent,
    }
}

// The role of the j-th child.
pub fn role_of(h: Head, j: usize) -> Role
    requires { (h.count < 65536) × (h.flag < 4) × (j < 1048576) }
    ensures { (s : Bytes) (hd : Line) → HeadIs s h hd → j < arity hd → result ≡ child_role (get_or (roles hd) j plain) }
{
    let word = h.word;
    match word {
        Word::Case => case_role(h.flag, h.count, j),
        Word::Lcp | Word::Pcp => comprehension_role(h.flag, j),
        _ => Role::Plain,
    }
}
