// Why a call is refused.
ghost use Rattle.std.specs.Prelude.{◌≡◌, Some};
ghost use Rattle.model.specs.Fault.{fault_text, fault_of};

use super::refusal::Refusal;
use std::fmt;

// Three numbers, as a client is told it; code says what it refuses by a `Refusal`.
#[derive(Clone, Copy, PartialEq, Eq, Debug)]
pub struct Fault {
    // Which refusal it is.
    pub number: u32,
    // Where in the order of checks it arose.
    pub station: u32,
    // The word of a message at fault, or 0.
    pub word: u32,
}

impl From<Refusal> for Fault {
    ghost from_gives = { λ refusal fault. fault ≡ fault_of refusal };

    fn from(refusal: Refusal) -> Fault {
        let (number, station, word) = match refusal {
            Refusal::BadHeader => (4, 3, 0),
            Refusal::UnlistedOpcode => (6, 3, 1),
            Refusal::BadArguments => (7, 3, 1),
            Refusal::Dark => (17, 9, 0),
            Refusal::BadScene => (18, 9, 0),
            Refusal::NoSize => (19, 9, 0),
        };
        Fault {
            number,
            station,
            word,
        }
    }
}

// The three numbers, with a space between them.
impl fmt::Display for Fault {
    ghost output = { λ f. Some (fault_text f) };

    fn fmt<W: fmt::Write>(&self, f: &mut fmt::Formatter<W>) -> fmt::Result {
        write!(f, "{} {} {}", self.number, self.station, self.word)
    }
}
