// What ends the program with status 1.
use crate::command::Misuse;
use std::io;
use thiserror::Error;

/// Why the program cannot do what it is asked for.
#[derive(Debug, Drop, Error)]
pub enum Fault {
    #[error("the arguments cannot be read: {0}")]
    Arguments(io::Error),
    #[error("{0}; `lerpuod help` lists the commands")]
    Misuse(#[from] Misuse),
    #[error("the file {name:?} cannot be read: {error}")]
    File { name: String, error: io::Error },
    #[error("the output cannot be written: {0}")]
    Output(#[from] io::Error),
    #[error("there is not enough memory")]
    Memory,
}
