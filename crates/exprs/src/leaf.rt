// Expressions whose type is fixed by the word: constants, parameters, properties, tests.
ghost use Rattle.std.specs.Prelude.{◌≡◌, ◌≤◌, length};
ghost use Rattle.semantics.specs.Limits.{type_limit};
ghost use Rattle.semantics.specs.Sheet.{row};
ghost use Rattle.line.specs.Words.{word_of};
ghost use Rattle.exprs.specs.Rules.{letter_of, ConstantBy};

use crate::front::{put_letter, put_pair};
use line::Word;
use ty::{ANY, BOOL, CLOSE, FLOAT, INT, MAP, NULL, STRING, UNKNOWN};

// The letter of a constant's type, by the word; Unknown's for a word that has none.
#[tactic(auto, unfolding(semantics::specs::Sheet::row, semantics::specs::Ty::line, semantics::specs::Ty::line_to, semantics::specs::Ty::fields_to, semantics::specs::Ty::letter, crate::specs::Rules::letter_of))]
fn constant_letter(word: Word) -> u8
    ensures { result ≡ letter_of (row (word_of word)).rule }
{
    match word {
        Word::Null => NULL,
        Word::Bool | Word::Isn | Word::Pat | Word::Lpr => BOOL,
        Word::Int => INT,
        Word::Flt => FLOAT,
        Word::Str => STRING,
        Word::Par | Word::Prop => ANY,
        Word::Mpr => MAP,
        _ => UNKNOWN,
    }
}

// The type of a constant; that of a map projection has two fields.
pub fn constant(word: Word, work: &mut [u8]) -> usize
    requires { type_limit ≤ length work.old }
    ensures { ConstantBy word work.old work.new result }
{
    match word {
        Word::Mpr => put_pair(work, MAP, CLOSE),
        _ => put_letter(work, constant_letter(word)),
    }
}
