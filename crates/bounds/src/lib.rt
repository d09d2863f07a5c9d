// The bounds on what a sheet's lines come to (specs/Sizes.antt). The claim about them is specs/Claims.antt; this function promises it.
#![tactic(auto)]

ghost use Rattle.bounds.specs.Claims.{Bounds};

// The place of the claim.
pub fn bounds_hold() -> bool
    ensures { Bounds }
{
    true
}
