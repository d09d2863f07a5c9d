// Unification from either side (RULES 10.2). The statement is specs/Exchange.antt; this function promises it.
#![tactic(auto)]

ghost use Rattle.exchange.specs.Exchange.{UnifyExchange};

// The place of the claim.
pub fn exchange_agrees() -> bool
    ensures { UnifyExchange }
{
    true
}
