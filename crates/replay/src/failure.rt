// Why the program fails, in the words that it prints.
use super::options::Misuse;
use std::alloc::AllocError;
use std::io;
use text::BadLine;
use thiserror::Error;

// An enum and no `anyhow::Error`, which would cut the name of a long path short.
#[derive(Debug, Drop, Error)]
pub(crate) enum Failure {
    #[error("the arguments cannot be read")]
    Arguments,
    #[error("{0}; replay --help says what there is")]
    Misuse(#[from] Misuse),
    #[error("{path} cannot be read: {error}")]
    Unreadable { path: String, error: io::Error },
    #[error(transparent)]
    Recording(#[from] BadLine),
    #[error("out of memory for the listing")]
    NoListing(#[from] AllocError),
    #[error("standard output cannot be written: {0}")]
    Output(io::Error),
}
