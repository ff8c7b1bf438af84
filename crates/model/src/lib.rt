// The types that every crate shares; `specs/` has the rules that contracts cite.
#![tactic(auto)]

pub mod element;
pub mod event;
pub mod fault;
pub mod format;
pub mod header;
pub mod interface;
pub mod refusal;
pub mod request;
pub mod size;

pub use element::Element;
pub use event::Event;
pub use fault::Fault;
pub use format::{Format, UnknownFormat};
pub use header::Header;
pub use interface::Interface;
pub use refusal::Refusal;
pub use request::Request;
pub use size::Size;
