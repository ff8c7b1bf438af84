// What holds of a core after any calls: theorems over the rules.
#![tactic(auto)]

ghost use Rattle.bounds.specs.Reached.{EventsFit, DepthSuffices, SpansApart};

// No call sends more than 160 events, whatever calls came before.
#[tactic(auto, using(crate::proofs::Reached::events_fit))]
pub fn events_fit()
    ensures { EventsFit }
{}

// No tree of surfaces is deeper than 32, so apply, the scene and the search for ancestors miss nothing.
#[tactic(auto, using(crate::proofs::Reached::depth_suffices))]
pub fn depth_suffices()
    ensures { DepthSuffices }
{}

// The spans of buffer records lie inside the pixel memory, and no two meet.
#[tactic(auto, using(crate::proofs::Reached::spans_apart))]
pub fn spans_apart()
    ensures { SpansApart }
{}
