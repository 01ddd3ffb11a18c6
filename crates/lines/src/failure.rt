//! Why a program that answers lines ends before its input does.
ghost use Rattle.std.specs.Prelude.{◌≡◌, ◌↔◌, IsTrue};
ghost use Rattle.lines.specs.declared.failure.Failure.TheVariants.{Memory};
ghost use Rattle.lines.specs.Ended.{IsClosedPipe};

use std::alloc::AllocError;
use std::io;
use thiserror::Error;

#[derive(Debug, Drop, Error)]
pub enum Failure {
    #[error("cannot read: {0}")]
    Read(io::Error),
    #[error("cannot write: {0}")]
    Write(io::Error),
    #[error("out of memory")]
    Memory,
    #[error("the input does not end")]
    Endless,
}

impl Failure {
    /// Whether the reader of the answers has closed its end: it has read all that it wanted.
    pub fn is_closed_pipe(&self) -> bool
        ensures { IsTrue result ↔ IsClosedPipe self.now }
    {
        matches!(self, Failure::Write(error) if error.kind() == io::ErrorKind::BrokenPipe)
    }
}

impl From<AllocError> for Failure {
    ghost from_gives = { λ _ failure. failure ≡ Memory };

    fn from(_error: AllocError) -> Failure {
        Failure::Memory
    }
}
