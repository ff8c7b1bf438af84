// Pixels laid on pixels: one by one, and a row of them.
#![tactic(auto)]

mod over;
mod row;
#[cfg(test)]
mod tests;

pub use over::{blend, lay, opaque};
pub use row::draw_row;
