// Text files: lines, words, the numbers and pixels that words write, and what is wrong with a line.
#![tactic(auto)]

mod argument;
mod first;
pub mod lines;
mod memory;
pub mod number;
pub mod pixel;
pub mod problem;
pub mod words;

pub use first::first_line;
pub use lines::Lines;
pub use number::{Number, digit_value};
pub use pixel::{PixelRun, read_pixels};
pub use problem::{Argument, BadLine, Problem};
pub use words::Words;
