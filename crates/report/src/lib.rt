// Results written as text: answers, the pixels of a glass, pictures.
#![tactic(auto)]

mod answer;
mod append;
mod crc;
mod glass;
mod ppm;

pub use answer::write_answer;
pub use crc::crc32;
pub use glass::{write_glass, write_rows};
pub use ppm::write_ppm;
