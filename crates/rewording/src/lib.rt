// Rewordings (RULES 8): demand 3 and secrecy. The statements are in specs/Reword.antt; this function promises both.
#![tactic(auto)]

ghost use Rattle.rewording.specs.Reword.{DemandThree, Secrecy};

// The place of the claims.
pub fn rewordings_agree() -> bool
    ensures { DemandThree × Secrecy }
{
    true
}
