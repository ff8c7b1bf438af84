// A message of the size that its header says.
ghost use Rattle.std.specs.Prelude.{◌≡◌};
ghost use Rattle.std.specs.List.{slice_get};
ghost use Rattle.model.specs.Asked.{in_numbers, asked};
ghost use Rattle.model.specs.Request.{request_of};
ghost use Rattle.model.specs.Word.{words};

use super::decode::decode_request;
use super::word::chunks;
use model::{Fault, Header, Interface, Request};

// What it asks for depends on the interface of its object, which is not known here.
#[derive(Drop)]
pub struct CheckedMessage<'m> {
    pub(crate) header: Header,
    pub(crate) body: &'m [u8],
}

impl CheckedMessage<'_> {
    // The id of the object that it is sent to.
    pub fn object(&self) -> u32
        ensures { result ≡ self.now.header.object }
    {
        self.header.object
    }

    // How many bytes it has, with its header.
    pub fn size(&self) -> u16
        ensures { result ≡ self.now.header.size }
    {
        self.header.size
    }

    pub fn opcode(&self) -> u16
        ensures { result ≡ self.now.header.opcode }
    {
        self.header.opcode
    }

    // Word `i` of its arguments.
    pub fn argument_word(&self, i: usize) -> Option<u32>
        ensures { result ≡ slice_get (words self.now.body.now) i }
    {
        chunks(self.body)
            .get(i)
            .map(|chunk| u32::from_le_bytes(*chunk))
    }

    // What it asks for, where its object has that interface.
    pub fn decode(self, interface: Interface) -> Result<Request, Fault>
        ensures value { result ≡ request_of interface self.entry.header.opcode (words self.entry.body.now) }
        ensures numbers { in_numbers result ≡ asked interface self.entry.header.opcode (words self.entry.body.now) }
    {
        let CheckedMessage { header, body } = self;
        decode_request(interface, header.opcode, body)
    }
}
