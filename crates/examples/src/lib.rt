// The worked examples, as one theorem over the rules.
#![tactic(auto)]

ghost use Rattle.examples.specs.Examples.{Examples};

// Holds by computing each run of calls.
pub fn examples_hold()
    ensures { Examples }
{}
