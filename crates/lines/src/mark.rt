//! The byte order mark that an input may begin with.
ghost use Rattle.std.specs.Prelude.{◌≡◌, ◌≢◌, true, IfOk, IfErr, IfSome, OnSome};
ghost use Rattle.std.specs.Io.KnownBytes.{Consumes, Keeps, IsAtEnd};
ghost use Rattle.lines.specs.Mark.{TakesNext, IsBehindMark};
ghost use Rattle.lines.specs.declared.failure.Failure.TheVariants.{Memory};

use crate::failure::Failure;
use std::io::{BufRead, ErrorKind};

// The byte order mark in UTF-8.
const MARK: [u8; 3] = [0xEF, 0xBB, 0xBF];

/// Where an input begins.
#[derive(Clone, Copy)]
pub struct Start {
    /// The bytes that were taken to see that there is no mark. They stand in front of what the reader has left.
    pub taken: &'static [u8],
    /// Whether the input ended with them.
    pub is_end: bool,
}

// What a reader had next.
#[derive(Clone, Copy)]
enum Next {
    Taken,
    Another,
    Nothing,
}

/// Passes over a byte order mark at the start of a reader.
pub fn pass_mark<R: BufRead>(input: &mut R) -> Result<Start, Failure>
    ensures start { IfOk result (λ start.
        IsBehindMark (R.remaining input.old) start.taken.now (R.remaining input.new)) }
    ensures end { IfOk result (λ start. start.is_end ≡ true
        → OnSome (R.remaining input.old) (IsAtEnd (R.remaining input.new))) }
    ensures no_memory { IfErr result (λ why. why ≢ Memory) }
{
    for (seen, byte) in MARK.iter().enumerate() {
        let is_end = match take_next(input, *byte)? {
            Next::Taken => continue,
            Next::Another => false,
            Next::Nothing => true,
        };
        return Ok(Start {
            taken: &MARK[..seen],
            is_end,
        });
    }
    Ok(Start {
        taken: &[],
        is_end: false,
    })
}

// Takes the next byte of a reader if it is this one.
fn take_next<R: BufRead>(input: &mut R, byte: u8) -> Result<Next, Failure>
    ensures next { IfOk result (λ next.
        TakesNext byte (R.remaining input.old) (R.remaining input.new) next) }
    ensures no_memory { IfErr result (λ why. why ≢ Memory) }
{
    for _ in 0..u64::MAX {
        match input.fill_buf() {
            Ok([]) => return Ok(Next::Nothing),
            Ok([first, ..]) if *first == byte => {
                input.consume(1);
                return Ok(Next::Taken);
            }
            Ok(_) => return Ok(Next::Another),
            Err(error) if error.kind() == ErrorKind::Interrupted => {}
            Err(error) => return Err(Failure::Read(error)),
        }
    }
    Err(Failure::Endless)
}
