// The calls of a recording in readable form, one a line.
use recording::{Call, Entry};
use std::alloc::{AllocError, Global};
use std::fmt;
use wire::Message;

pub(crate) fn list_calls(heap: Global, entries: &[Entry]) -> Result<String, AllocError> {
    let mut text = String::new(heap);
    for (number, entry) in (1usize..).zip(entries) {
        writeln!(text, "{number} {}", Listed(&entry.call))?;
    }
    Ok(text)
}

// A call as it is listed.
#[derive(Drop)]
struct Listed<'a>(&'a Call);

impl fmt::Display for Listed<'_> {
    fn fmt<W: fmt::Write>(&self, f: &mut fmt::Formatter<W>) -> fmt::Result {
        match self.0 {
            Call::Request { client, message } => {
                write!(f, "request {client} ")?;
                write_message(f, message.as_slice())
            }
            Call::Buffer {
                client,
                id,
                first,
                width,
                height,
                stride,
                format,
            } => write!(
                f,
                "buffer {client} {id} {first} {width} {height} {stride} {format}"
            ),
            Call::Root { client, id, x, y } => write!(f, "root {client} {id} {x} {y}"),
            Call::Paint {
                client,
                id,
                offset,
                pixels,
            } => {
                write!(f, "paint {client} {id} {offset}")?;
                for pixel in pixels {
                    write!(f, " {pixel:08x}")?;
                }
                Ok(())
            }
            Call::Switch { on: true } => write!(f, "switch on"),
            Call::Switch { on: false } => write!(f, "switch off"),
            Call::Frame { time } => write!(f, "frame {time}"),
        }
    }
}

// What the header of a message says and its argument words, or why it cannot be read.
fn write_message<W: fmt::Write>(f: &mut fmt::Formatter<W>, message: &[u8]) -> fmt::Result {
    let message = match Message::read(message).check() {
        Ok(message) => message,
        Err(fault) => return write!(f, "fault {fault}"),
    };
    let object = message.object();
    let opcode = message.opcode();
    let size = message.size();
    write!(f, "object {object} opcode {opcode} size {size}")?;
    // There are fewer words than bytes.
    for word in (0..usize::from(size)).map_while(|i| message.argument_word(i)) {
        write!(f, " {word}")?;
    }
    Ok(())
}
