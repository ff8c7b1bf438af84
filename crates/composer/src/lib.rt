// The composer: a presenter that draws each scene into a frame memory.
#![tactic(auto)]

mod composer;
mod lent;

pub use composer::Composer;
pub use lent::compose;
