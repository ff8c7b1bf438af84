// That a refused call alters nothing, as a theorem over the rules.
ghost use Rattle.rules.specs.Refusal.{Refusals};

// Holds of each call by itself, for every core.
#[tactic(auto, using(crate::proofs::Refusals::refusals))]
pub fn refusals_alter_nothing()
    ensures { Refusals }
{}
