// The header of a message: the first two of its words.

#[derive(Clone, Copy, PartialEq, Eq, Debug)]
pub struct Header {
    // The object that the message is sent to.
    pub object: u32,
    // How many bytes the message says that it has.
    pub size: u16,
    pub opcode: u16,
}
