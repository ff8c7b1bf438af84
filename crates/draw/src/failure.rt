// Why the program fails, in the words that it prints.
use super::options::Misuse;
use std::io;
use text::BadLine;
use thiserror::Error;

// An enum and no `anyhow::Error`, which would cut the name of a long path short.
#[derive(Debug, Drop, Error)]
pub(crate) enum Failure {
    #[error("the arguments cannot be read")]
    Arguments,
    #[error("{0}; draw --help says what there is")]
    Misuse(#[from] Misuse),
    #[error("{path} cannot be read: {error}")]
    Unreadable { path: String, error: io::Error },
    #[error("standard input cannot be read: {0}")]
    Input(io::Error),
    #[error(transparent)]
    Scene(#[from] BadLine),
    #[error("out of memory for the pixel memory, the frame or the report")]
    NoReport,
    #[error("out of memory for the PPM")]
    NoPpm,
    #[error("{path} cannot be written: {error}")]
    Unwritable { path: String, error: io::Error },
    #[error("standard output cannot be written: {0}")]
    Output(io::Error),
}
