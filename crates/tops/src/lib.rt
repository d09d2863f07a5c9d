// The order in which a report meets the top expressions (specs/Tops.antt). The claim about it is specs/Claims.antt; this function promises it.
#![tactic(auto)]

ghost use Rattle.tops.specs.Claims.{TopsInOrder};

// The place of the claim.
pub fn tops_agree() -> bool
    ensures { TopsInOrder }
{
    true
}
