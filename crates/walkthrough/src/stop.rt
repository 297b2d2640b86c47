// Why the program stopped: `main` prints it, as `Debug` does, on standard error.
use algebra::interface::NoValue;
use std::io;
use thiserror::Error;

#[derive(Debug, Drop, Error)]
pub enum Stop {
    #[error(transparent)]
    Code(#[from] NoValue),
    #[error(transparent)]
    Output(#[from] io::Error),
}
