// The words after the program's name.
use std::env::Args;
use thiserror::Error;

pub(crate) const HELP: &str = "draw [--ppm FILE] [SCENE]

Shows the scene of the file SCENE, or of standard input, on a composer.
Prints the answer and, if it is 0 0 0, the CRC-32 of the glass and its rows.

  --ppm FILE    also writes the glass to FILE, as a binary PPM
  --help        prints this
";

#[derive(Debug, Drop)]
pub(crate) enum Options {
    Help,
    Draw {
        scene: Option<String>,
        ppm: Option<String>,
    },
}

// What is wrong with the words.
#[derive(Clone, Copy, PartialEq, Eq, Debug, Error)]
pub(crate) enum Misuse {
    #[error("an option that draw does not have")]
    UnknownOption,
    #[error("--ppm wants a file")]
    NoPpmFile,
    #[error("more than one scene file")]
    SecondScene,
}

pub(crate) fn read_options(args: Args) -> Result<Options, Misuse> {
    let mut scene = None;
    let mut ppm = None;
    let mut args = args.skip(1);
    while let Some(arg) = args.next() {
        match arg.as_str() {
            "--help" => return Ok(Options::Help),
            "--ppm" => ppm = Some(args.next().ok_or(Misuse::NoPpmFile)?),
            word if word.starts_with("-") => return Err(Misuse::UnknownOption),
            _ if scene.is_some() => return Err(Misuse::SecondScene),
            _ => scene = Some(arg),
        }
    }
    Ok(Options::Draw { scene, ppm })
}
