// The definitions of the laws, tried on some runs.
#![tactic(auto)]

ghost use Rattle.laws_tests.specs.Tried.{Tried};

// Holds by computing each run.
pub fn laws_compute()
    ensures { Tried }
{}
