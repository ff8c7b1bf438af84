// What a message is answered where its object is known, for the tests.
use model::{Fault, Interface, Request};
use wire::Message;

pub(crate) const BAD_HEADER: Fault = Fault {
    number: 4,
    station: 3,
    word: 0,
};

pub(crate) const UNLISTED_OPCODE: Fault = Fault {
    number: 6,
    station: 3,
    word: 1,
};

pub(crate) const BAD_ARGUMENTS: Fault = Fault {
    number: 7,
    station: 3,
    word: 1,
};

// What a message asks of an object with that interface.
pub(crate) fn carry_out(message: Message<'_>, interface: Interface) -> Result<Request, Fault> {
    message.check()?.decode(interface)
}

// Why bytes are refused as a message to an object with that interface, if they are.
pub(crate) fn refusal(bytes: &[u8], interface: Interface) -> Option<Fault> {
    carry_out(Message::read(bytes), interface).err()
}
