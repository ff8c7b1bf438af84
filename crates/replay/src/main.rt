// The bench: reads a recording and lists its calls.
#![tactic(auto)]

mod failure;
mod listing;
mod options;

use failure::Failure;
use listing::list_calls;
use options::{HELP, Options, read_options};
use recording::parse_recording;
use std::io::Write;
use std::process::ExitCode;
use std::{env, fs};

// As in `draw`, with other options and failures; what is alike is input and output, of which no contract could say anything.
fn main(rt: HostRuntime) -> ExitCode {
    match run(&rt) {
        Ok(()) => ExitCode::SUCCESS,
        Err(failure) => {
            let _ = eprintln!(rt; "{failure}");
            ExitCode::FAILURE
        }
    }
}

fn run(rt: &HostRuntime) -> Result<(), Failure> {
    let args = env::args(rt).map_err(|_| Failure::Arguments)?;
    match read_options(args)? {
        Options::Help => print(rt, HELP),
        Options::List { recording } => list(rt, recording),
    }
}

fn print(rt: &HostRuntime, text: &str) -> Result<(), Failure> {
    rt.stdout()
        .write_all(text.as_bytes())
        .map_err(Failure::Output)
}

fn list(rt: &HostRuntime, path: String) -> Result<(), Failure> {
    let text = fs::read(rt, path.as_str()).map_err(|error| Failure::Unreadable { path, error })?;
    let recording = parse_recording(rt.alloc(), text.as_slice())?;
    let listing = list_calls(rt.alloc(), recording.entries.as_slice())?;
    print(rt, listing.as_str())
}
