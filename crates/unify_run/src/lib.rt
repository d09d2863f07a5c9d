// The running form of `unify` (specs/Run.antt). The claim about it is specs/Claims.antt; this function promises it.
#![tactic(auto)]

ghost use Rattle.unify_run.specs.Claims.{RunningUnify};

// The place of the claim.
pub fn runs_agree() -> bool
    ensures { RunningUnify }
{
    true
}
