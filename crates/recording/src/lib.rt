// Recordings: the calls that a console was given, one a line.
#![tactic(auto)]

mod call_line;
mod choice;
pub mod content;
mod line;
mod message;
mod paint;
mod parse;

pub use content::{Call, Console, Entry, PresenterKind, Recording};
pub use parse::parse_recording;
