// Old type lines made regular (docs/RULES.md, section 10.3): the definition is specs/Old.antt, what is claimed of it specs/Claims.antt; this function
// promises the claims.
#![tactic(auto)]

ghost use Rattle.old_lines.specs.Claims.{RegularLines};

// The place of the claims about `regular_call`.
pub fn lines_agree() -> bool
    ensures { RegularLines }
{
    true
}
