// The running form of the walk (specs/Run.antt). The claim about it is specs/Claims.antt; this function promises it.
#![tactic(auto)]

ghost use Rattle.walk_run.specs.Claims.{RunningWalk};

// The place of the claim.
pub fn walks_agree() -> bool
    ensures { RunningWalk }
{
    true
}
