// The rules of the core as a plain machine; `specs/` has them, and these are the types that they share with the code.
// Records name one another by their places in tables of fixed size, since the core has no heap. A client and an id are two
// fields, as in the calls and the events: a buffer keeps its client when it has lost its id.
#![tactic(auto)]

pub mod attach;
pub mod buffer;
pub mod callback;
pub mod object;
pub mod refusal;
pub mod role;
pub mod stage;

pub use attach::Attach;
pub use buffer::Buffer;
pub use callback::Callback;
pub use object::{Object, ObjectKind};
pub use refusal::refusals_alter_nothing;
pub use role::Role;
pub use stage::Stage;
