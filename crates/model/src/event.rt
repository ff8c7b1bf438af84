// An event that a call sends to a client: four numbers, as a client is told it.

#[derive(Clone, Copy, PartialEq, Eq, Debug)]
pub struct Event {
    pub client: u32,
    pub object: u32,
    pub opcode: u32,
    pub value: u32,
}
