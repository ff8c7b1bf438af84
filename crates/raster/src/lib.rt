// Elements drawn into a frame memory, row by row.
#![tactic(auto)]

mod clip;
mod draw;
mod frame;
mod sound;

pub use frame::{clear_frame, draw_frame, frame_length, frame_pixel, frame_size};
pub use sound::are_sound;
