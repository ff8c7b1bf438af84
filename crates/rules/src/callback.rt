// A callback that a client has coming.
use super::stage::Stage;

#[derive(Clone, Copy, PartialEq, Eq, Debug)]
pub struct Callback {
    pub client: u32,
    pub id: u32,
    // The place of its surface.
    pub surface: u8,
    pub stage: Stage,
}
