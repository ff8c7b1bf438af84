// Shows the scene of a file on a composer, and prints what stands on the glass.
#![tactic(auto)]

mod failure;
mod options;
mod output;
mod show;

use failure::Failure;
use model::Size;
use options::{HELP, Options, read_options};
use output::report_scene;
use report::write_ppm;
use scene::parse_scene;
use std::io::{Read, Write};
use std::process::ExitCode;
use std::{env, fs};

// `replay` has a `main` like this one, and options and failures of its own. They are not shared: the options and failures differ,
// and what is alike is input and output, of which no contract of a shared function could say anything.
fn main(rt: HostRuntime) -> ExitCode {
    match run(&rt) {
        Ok(()) => ExitCode::SUCCESS,
        Err(failure) => {
            let _ = eprintln!(rt; "{failure}");
            ExitCode::FAILURE
        }
    }
}

fn run(rt: &HostRuntime) -> Result<(), Failure> {
    let args = env::args(rt).map_err(|_| Failure::Arguments)?;
    match read_options(args)? {
        Options::Help => {
            let _ = rt.print(HELP);
            Ok(())
        }
        Options::Draw { scene, ppm } => draw(rt, scene, ppm),
    }
}

fn draw(rt: &HostRuntime, scene: Option<String>, ppm: Option<String>) -> Result<(), Failure> {
    let text = read_scene(rt, scene)?;
    let file = parse_scene(rt.alloc(), text.as_slice())?;
    let report = report_scene(rt.alloc(), &file).map_err(|_| Failure::NoReport)?;
    // The PPM is written first, so that nothing is printed where it cannot be.
    if let (Some(path), Some(glass)) = (ppm, &report.glass) {
        save(rt, file.console.size, glass.as_slice(), path)?;
    }
    rt.stdout()
        .write_all(report.text.as_slice())
        .map_err(Failure::Output)
}

// The text of the scene file, or of standard input.
fn read_scene(rt: &HostRuntime, scene: Option<String>) -> Result<Vec<u8>, Failure> {
    match scene {
        Some(path) => {
            fs::read(rt, path.as_str()).map_err(|error| Failure::Unreadable { path, error })
        }
        None => {
            let mut text = Vec::new(rt.alloc());
            rt.stdin().read_to_end(&mut text).map_err(Failure::Input)?;
            Ok(text)
        }
    }
}

fn save(rt: &HostRuntime, size: Size, glass: &[u32], path: String) -> Result<(), Failure> {
    let mut picture = Vec::new(rt.alloc());
    write_ppm(&mut picture, size, glass).map_err(|_| Failure::NoPpm)?;
    fs::write(rt, path.as_str(), picture.as_slice()).map_err(|error| Failure::Unwritable {
        path,
        error,
    })
}
