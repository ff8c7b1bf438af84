// The words after the program's name.
use std::env::Args;
use thiserror::Error;

pub(crate) const HELP: &str = "replay RECORDING --list

Lists the calls of the file RECORDING, one a line: the number of the call, its
name and its arguments. A request is listed by the object, opcode and size of
its message and its argument words, or by the fault of the message.

  --list        lists the calls
  --help        prints this
";

#[derive(Debug, Drop)]
pub(crate) enum Options {
    Help,
    List { recording: String },
}

// What is wrong with the words.
#[derive(Clone, Copy, PartialEq, Eq, Debug, Error)]
pub(crate) enum Misuse {
    #[error("an option that replay does not have")]
    UnknownOption,
    #[error("replay wants a recording")]
    NoRecording,
    #[error("more than one recording")]
    SecondRecording,
    #[error("a recording can only be listed yet, with --list")]
    NoList,
}

pub(crate) fn read_options(args: Args) -> Result<Options, Misuse> {
    let mut recording = None;
    let mut lists = false;
    for arg in args.skip(1) {
        match arg.as_str() {
            "--help" => return Ok(Options::Help),
            "--list" => lists = true,
            word if word.starts_with("-") => return Err(Misuse::UnknownOption),
            _ if recording.is_some() => return Err(Misuse::SecondRecording),
            _ => recording = Some(arg),
        }
    }
    let recording = recording.ok_or(Misuse::NoRecording)?;
    lists
        .then_some(Options::List { recording })
        .ok_or(Misuse::NoList)
}
