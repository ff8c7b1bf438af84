// Presenters: what shows a scene on an output, for every kind of presenter.
#![tactic(auto)]

mod checks;
mod first;
mod presenter;
mod readback;

pub use checks::{check_show, check_switch_on};
pub use first::first_frame;
pub use presenter::Presenter;
pub use readback::{Readback, read_glass};
