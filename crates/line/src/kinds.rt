// What a variable is bound as.
ghost use Rattle.std.specs.Prelude.{◌≡◌};
ghost use Rattle.line.specs.Kinds.{Lettered, kind_no};

use semantics::Refusal;

#[derive(Clone, Copy, PartialEq, Eq)]
pub enum VarKind {
    Node,
    Relationship,
    Path,
    Value,
}

// The kind by its letter.
impl TryFrom<u8> for VarKind {
    type Error = Refusal;

    ghost try_from_gives = { Lettered };

    #[tactic(auto, unfolding(semantics::specs::Sheet::lettered))]
    fn try_from(letter: u8) -> Result<Self, Refusal> {
        match letter {
            b'N' => Ok(VarKind::Node),
            b'R' => Ok(VarKind::Relationship),
            b'P' => Ok(VarKind::Path),
            b'V' => Ok(VarKind::Value),
            _ => Err(Refusal::BadlyWritten),
        }
    }
}

// Its number, as the field of a line says it.
impl From<VarKind> for u64 {
    ghost from_gives = { λ kind n. n ≡ kind_no kind };

    fn from(kind: VarKind) -> u64 {
        match kind {
            VarKind::Node => 0,
            VarKind::Relationship => 1,
            VarKind::Path => 2,
            VarKind::Value => 3,
        }
    }
}
