// Lists over lent places and in places of their own, and the search by key.
#![tactic(auto)]

mod appender;
mod indices;
mod keyed;
mod within;

pub use appender::Appender;
pub use indices::Indices;
pub use keyed::{Keyed, find};
pub use within::push_within;
