// The bytes of a message, as words of hex digits.
ghost use Rattle.std.specs.Prelude.{◌≡◌, []};
ghost use Rattle.text.specs.Told.{Gives};
ghost use Rattle.recording.specs.Message.{hex_byte, hex_bytes, message_bytes};

use std::alloc::Global;
use text::{Problem, Words, digit_value};

// The byte that two digits write.
#[tactic(auto, unfolding(crate::specs::Message::hex_byte))]
fn read_byte(high: u8, low: u8) -> Result<u8, Problem>
    ensures { result ≡ hex_byte high low }
{
    match (digit_value(high), digit_value(low)) {
        (Some(high), Some(low)) => Ok(high * 16 + low),
        _ => Err(Problem::MessageForm),
    }
}

// The bytes of one word go to the end of the message.
fn read_hex(word: &[u8], message: &mut Vec<u8>) -> Result<(), Problem>
    ensures { Gives (λ _. message.new.items) result (hex_bytes message.old.items word.now) }
{
    let mut digits = word;
    while let [high, low, rest @ ..] = digits {
        message.push(read_byte(*high, *low)?)?;
        digits = rest;
    }
    if digits.is_empty() {
        Ok(())
    } else {
        Err(Problem::MessageForm)
    }
}

// The bytes of all words that are left.
pub(crate) fn read_message(heap: Global, line: Words<'_>) -> Result<Vec<u8>, Problem>
    ensures { Gives (λ message. message.items) result (message_bytes [] line.entry) }
{
    let mut message = Vec::new(heap);
    for word in line {
        read_hex(word, &mut message)?;
    }
    Ok(message)
}
