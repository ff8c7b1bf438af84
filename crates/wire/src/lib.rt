// Messages of clients, from bytes to requests. Each step uses up what it is given, so a message is carried out once.
#![tactic(auto)]

mod checked;
mod decode;
mod message;
mod word;

pub use checked::CheckedMessage;
pub use message::Message;
