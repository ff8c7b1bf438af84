// What can be wrong with a file, and how it is said.
ghost use Rattle.std.specs.Prelude.{◌≡◌, ◌++◌, Some};
ghost use Rattle.text.specs.Message.{argument_name, problem_subject, problem_text, bad_line_text};

use std::error::Error;
use std::fmt;

// An argument of a line, by the name that messages give it.
#[derive(Clone, Copy, PartialEq, Eq, Debug)]
pub enum Argument {
    X,
    Y,
    First,
    Width,
    Height,
    Stride,
    Format,
    Pixels,
    Client,
    Id,
    Offset,
    Places,
    Time,
}

// What is wrong with a line.
#[derive(Clone, Copy, PartialEq, Eq, Debug)]
pub enum Problem {
    // There is no line with a word.
    NoConsole,
    // The first line with a word is not the console of a scene file or of a recording.
    SceneStart,
    RecordingStart,
    SecondConsole,
    UnknownLine,
    Missing(Argument),
    NotUnsigned(Argument),
    NotSigned(Argument),
    PixelForm,
    PixelsPastEnd,
    MessageForm,
    SwitchForm,
    WordTooMany,
    // No fault of the file: memory ran out.
    NoMemory,
}

// A line that is wrong, counted from 1.
#[derive(Clone, Copy, PartialEq, Eq)]
pub struct BadLine {
    pub line: usize,
    pub problem: Problem,
}

impl fmt::Display for Argument {
    ghost output = { λ name. Some (argument_name name) };

    fn fmt<W: fmt::Write>(&self, f: &mut fmt::Formatter<W>) -> fmt::Result {
        f.write_str(match self {
            Argument::X => "X",
            Argument::Y => "Y",
            Argument::First => "FIRST",
            Argument::Width => "WIDTH",
            Argument::Height => "HEIGHT",
            Argument::Stride => "STRIDE",
            Argument::Format => "FORMAT",
            Argument::Pixels => "PIXELS",
            Argument::Client => "CLIENT",
            Argument::Id => "ID",
            Argument::Offset => "OFFSET",
            Argument::Places => "N",
            Argument::Time => "TIME",
        })
    }
}

// Written out, here and for a bad line, since what it says is a promise: a Display that thiserror derives has no contract.
impl fmt::Display for Problem {
    ghost output = { λ problem. Some (problem_subject problem ++ problem_text problem) };

    fn fmt<W: fmt::Write>(&self, f: &mut fmt::Formatter<W>) -> fmt::Result {
        match self {
            Problem::NoConsole => write!(f, "the file has no console line"),
            Problem::SceneStart => write!(
                f,
                "the first line must be: console WIDTH HEIGHT composer PIXELS"
            ),
            Problem::RecordingStart => write!(
                f,
                "the first line must be: console WIDTH HEIGHT composer|scanout PIXELS"
            ),
            Problem::SecondConsole => write!(f, "a second console line"),
            Problem::UnknownLine => write!(f, "unknown word at the start of the line"),
            Problem::Missing(name) => write!(f, "{name} is missing"),
            Problem::NotUnsigned(name) => {
                write!(f, "{name} is not a number from 0 to 4294967295")
            }
            Problem::NotSigned(name) => {
                write!(f, "{name} is not a number from -2147483648 to 2147483647")
            }
            Problem::PixelForm => write!(f, "a pixel is eight hex digits, or N*PIXEL"),
            Problem::PixelsPastEnd => write!(f, "the pixels do not fit the pixel memory"),
            Problem::MessageForm => {
                write!(f, "a message is hex digits, an even number to a word")
            }
            Problem::SwitchForm => write!(f, "switch is on or off"),
            Problem::WordTooMany => write!(f, "a word too many"),
            Problem::NoMemory => write!(f, "out of memory"),
        }
    }
}

impl Error for Problem {}

impl fmt::Display for BadLine {
    ghost output = { λ b. Some (bad_line_text b) };

    fn fmt<W: fmt::Write>(&self, f: &mut fmt::Formatter<W>) -> fmt::Result {
        write!(f, "line {}: {}", self.line, self.problem)
    }
}

// Written by hand, so that it shows the message under `{:?}` too.
impl fmt::Debug for BadLine {
    ghost debug_output = { λ b. Some (bad_line_text b) };

    fn fmt<W: fmt::Write>(&self, f: &mut fmt::Formatter<W>) -> fmt::Result {
        write!(f, "{self}")
    }
}

impl Error for BadLine {}
