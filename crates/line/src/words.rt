// The words of the lines. Made by tools/line_table.py.
ghost use Rattle.semantics.specs.Sheet.{words};
ghost use Rattle.line.specs.Rows.{word_at, FoundAs};

#[derive(Clone, Copy, PartialEq, Eq)]
pub enum Word {
    Cyrs,
    B,
    End,
    Mat,
    Cre,
    Mer,
    Whe,
    Wit,
    Ret,
    Unw,
    Set,
    Rem,
    Del,
    Cal,
    Pro,
    Sp,
    Sl,
    Sm,
    Rp,
    Rl,
    Lab,
    Parts,
    Part,
    Nod,
    Rel,
    Null,
    Bool,
    Int,
    Flt,
    Str,
    Var,
    Par,
    Unr,
    Exi,
    Prop,
    Idx,
    Sli,
    Lis,
    Map,
    Key,
    Call,
    Bin,
    Una,
    Case,
    Isn,
    In,
    Pat,
    Lcp,
    Pcp,
    Lpr,
    Mpr,
    Cop,
    Com,
    Sho,
    Ali,
}

// The word whose letters, a byte each behind a 1, make up this number. A match on the letters themselves was tried: it is as fast, but its
// proof stopped at 136 goals, one for each letter at which no word goes on, where the arms of a slice give no fact with a name to answer by.
#[tactic(auto, unfolding(semantics::specs::Sheet::row, semantics::specs::Bytes::text, crate::specs::Rows::word_at, crate::specs::Rows::code_from))]
#[inline(always)]
pub fn word_of(code: u64) -> Option<Word>
    ensures { FoundAs result (word_at code words) }
{
    match code {
        94828 => Some(Word::Rl), // rl
        94832 => Some(Word::Rp), // rp
        95085 => Some(Word::Sm), // sm
        95084 => Some(Word::Sl), // sl
        95088 => Some(Word::Sp), // sp
        23290220 => Some(Word::Cal), // cal
        23356780 => Some(Word::Del), // del
        24274285 => Some(Word::Rem), // rem
        24339828 => Some(Word::Set), // set
        24473207 => Some(Word::Unw), // unw
        24274292 => Some(Word::Ret), // ret
        24602996 => Some(Word::Wit), // wit
        24602725 => Some(Word::Whe), // whe
        23946610 => Some(Word::Mer), // mer
        23294565 => Some(Word::Cre), // cre
        23945588 => Some(Word::Mat), // mat
        23424612 => Some(Word::End), // end
        5963870835 => Some(Word::Cyrs), // cyrs
        354 => Some(Word::B), // b
        24274284 => Some(Word::Rel), // rel
        24014692 => Some(Word::Nod), // nod
        6180401780 => Some(Word::Part), // part
        1582182855795 => Some(Word::Parts), // parts
        23880034 => Some(Word::Lab), // lab
        23161961 => Some(Word::Ali), // ali
        24340591 => Some(Word::Sho), // sho
        23293805 => Some(Word::Com), // com
        23293808 => Some(Word::Cop), // cop
        23949426 => Some(Word::Mpr), // mpr
        23883890 => Some(Word::Lpr), // lpr
        24142704 => Some(Word::Pcp), // pcp
        23880560 => Some(Word::Lcp), // lcp
        24142196 => Some(Word::Pat), // pat
        92526 => Some(Word::In), // in
        23688046 => Some(Word::Isn), // isn
        24473185 => Some(Word::Una), // una
        24341609 => Some(Word::Sli), // sli
        23684216 => Some(Word::Idx), // idx
        23427177 => Some(Word::Exi), // exi
        24473202 => Some(Word::Unr), // unr
        24142194 => Some(Word::Par), // par
        5962296428 => Some(Word::Call), // call
        5962298213 => Some(Word::Case), // case
        23945584 => Some(Word::Map), // map
        23882099 => Some(Word::Lis), // lis
        23815545 => Some(Word::Key), // key
        24146543 => Some(Word::Pro), // pro
        23489652 => Some(Word::Flt), // flt
        5946437484 => Some(Word::Bool), // bool
        6148156524 => Some(Word::Null), // null
        23226734 => Some(Word::Bin), // bin
        6181515120 => Some(Word::Prop), // prop
        24535410 => Some(Word::Var), // var
        24343666 => Some(Word::Str), // str
        23686772 => Some(Word::Int), // int
        _ => None,
    }
}
