// Stores of types (RULES 10.4): the definition is specs/Catalogue.antt; this function promises what is claimed of it alone.
#![tactic(auto)]

ghost use Rattle.stores.specs.Catalogue.{AnyCalls};

// The place of the claim over sequences of calls on a store that starts empty.
pub fn sequences_agree() -> bool
    ensures { AnyCalls }
{
    true
}
