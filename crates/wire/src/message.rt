// A message as a client sent it.
ghost use Rattle.std.specs.Prelude.{◌≡◌, IfOk};
ghost use Rattle.std.specs.Result.{result_map_both};
ghost use Rattle.model.specs.Message.{header_of, body_of, header_answer};

use super::checked::CheckedMessage;
use model::{Fault, Header, Refusal};

// Borrows its bytes until it is carried out or let go. No copy can be made, so it is carried out once.
#[derive(Drop)]
pub struct Message<'m> {
    // Absent under eight bytes: who sent the message is judged first, so reading refuses nothing.
    header: Option<Header>,
    body: &'m [u8],
}

impl<'m> Message<'m> {
    // A message with these bytes.
    pub fn read(bytes: &'m [u8]) -> Message<'m>
        ensures header { result.header ≡ header_of bytes.now }
        ensures body { result.body.now ≡ body_of bytes.now }
    {
        let (header, body) = split_header(bytes);
        Message { header, body }
    }

    // The message, if it has a header and the size that its header says.
    pub fn check(self) -> Result<CheckedMessage<'m>, Fault>
        ensures header { result_map_both (λ m. m.header) (λ f. f) result ≡ header_answer self.entry.header self.entry.body.now }
        ensures body { IfOk result (λ m. m.body.now ≡ self.entry.body.now) }
    {
        let Message { header, body } = self;
        let header = check_header(header, body)?;
        Ok(CheckedMessage { header, body })
    }
}

// The header of a message, if there is one, and what follows it. The rules take it as two words, so the pattern names their
// eight bytes, and the size and the opcode are the halves of the second.
fn split_header(bytes: &[u8]) -> (Option<Header>, &[u8])
    ensures header { result.0 ≡ header_of bytes.now }
    ensures body { result.1.now ≡ body_of bytes.now }
{
    match bytes {
        [b0, b1, b2, b3, b4, b5, b6, b7, body @ ..] => {
            let second = u32::from_le_bytes([*b4, *b5, *b6, *b7]);
            let header = Header {
                object: u32::from_le_bytes([*b0, *b1, *b2, *b3]),
                size: (second / 0x1_0000) as u16,
                opcode: (second % 0x1_0000) as u16,
            };
            (Some(header), body)
        }
        _ => (None, &[]),
    }
}

// The header, if there is one and its size is that of the message and in whole words.
fn check_header(header: Option<Header>, body: &[u8]) -> Result<Header, Fault>
    ensures { result ≡ header_answer header body.now }
{
    let header = header
        .filter(|header| usize::from(header.size) == body.len() + 8 && header.size % 4 == 0)
        .ok_or(Refusal::BadHeader)?;
    Ok(header)
}
