//! A line as it is read: up to its line feed, of which no more than 4,096 bytes are kept.
ghost use Rattle.std.specs.Prelude.{◌≡◌, ◌≢◌, ◌↔◌, ◌≤◌, ℕ, List, [], true, IfOk, IfErr, IfSome, OnOk, OnSome, IsTrue, All, length};
ghost use Rattle.std.specs.Io.{StartsWith};
ghost use Rattle.std.specs.Io.BufRead.{DropsThrough, first_piece};
ghost use Rattle.std.specs.Io.KnownBytes.{Keeps, IsAtEnd};
ghost use Rattle.lines.specs.Lines.{Holds};
ghost use Rattle.lines.specs.Pieces.{Took, TakesPiece, with_end};
ghost use Rattle.lines.specs.declared.line.End.TheVariants.{Input};
ghost use Rattle.lines.specs.declared.failure.Failure.TheVariants.{Memory};

use crate::failure::Failure;
use arrayvec::ArrayVec;
use memchr::memchr;
use std::io::{BufRead, ErrorKind, Write};

/// The most bytes of a line that are kept, its line feed not counted.
pub const LINE_BYTES: usize = 4096;

/// A line without its line feed: its first 4,096 bytes, and whether it has more.
#[derive(Drop)]
pub struct Line {
    pub bytes: ArrayVec<u8, LINE_BYTES>,
    pub is_long: bool,
    /// Whether the input ended with it.
    pub is_last: bool,
    /// Whether the reader may have to wait for the bytes behind it.
    waits: bool,
}

// What a piece of a line ended with.
#[derive(Clone, Copy, PartialEq, Eq)]
enum End {
    Feed,
    Input,
    Shown,
}

impl Line {
    /// A line of no bytes. The bytes lie in the value itself, so that no line asks for memory.
    pub fn new() -> Line
        ensures { Holds result [] }
    {
        Line {
            bytes: ArrayVec::new(),
            is_long: false,
            is_last: false,
            waits: true,
        }
    }

    /// The next line of a reader, or that there is none. What the writer holds back is written before the reader waits.
    pub fn read<R: BufRead, W: Write>(
        &mut self,
        input: &mut R,
        out: &mut W,
    ) -> Result<bool, Failure>
        // At any reader.
        ensures kept { Keeps (W.contents out.old) (W.contents out.new) }
        ensures few { OnOk result (length self.new.bytes.items ≤ 4096) }
        ensures one_line { OnOk result (All (λ byte. byte ≢ 10) self.new.bytes.items) }
        ensures no_memory { IfErr result (λ why. why ≢ Memory) }

        // If the bytes are known.
        ensures more { IfOk result (λ more. IfSome (R.remaining input.old)
            (λ bytes. IsTrue more ↔ (bytes ≢ []))) }
        ensures line { OnOk result (IfSome (R.remaining input.old)
            (λ bytes. Holds self.new (first_piece 10 bytes))) }
        ensures rest { OnOk result
            (DropsThrough (R.remaining input.old) (R.remaining input.new) 10) }
        ensures last { OnOk result (self.new.is_last ≡ true
            → OnSome (R.remaining input.old) (IsAtEnd (R.remaining input.new))) }
    {
        self.bytes.clear();
        self.is_long = false;
        self.is_last = false;
        for _ in 0..u64::MAX {
            if self.waits {
                out.flush().map_err(Failure::Write)?;
            }
            match self.take_piece(input)? {
                End::Feed => return Ok(true),
                End::Input => {
                    self.is_last = true;
                    return Ok(!self.bytes.is_empty());
                }
                End::Shown => {}
            }
        }
        Err(Failure::Endless)
    }

    // Takes the first piece of what the reader shows, and the line feed that ends it.
    fn take_piece<R: BufRead>(&mut self, input: &mut R) -> Result<End, Failure>
        ensures took { IfOk result (λ end. (piece : List ℕ) × Took self.old self.new piece
            × TakesPiece (R.remaining input.old) (R.remaining input.new) piece end) }
        ensures no_memory { IfErr result (λ why. why ≢ Memory) }
    {
        let shown = match input.fill_buf() {
            Ok(shown) => shown,
            Err(error) if error.kind() == ErrorKind::Interrupted => return Ok(End::Shown),
            Err(error) => return Err(Failure::Read(error)),
        };
        let (piece, end) = piece_of(shown);
        self.keep(piece);
        let taken = piece.len() + usize::from(end == End::Feed);
        self.waits = taken == shown.len();
        input.consume(taken);
        Ok(end)
    }

    // Bytes behind those that are kept, as far as there is room.
    fn keep(&mut self, bytes: &[u8])
        ensures { Took self.old self.new bytes.now }
    {
        let room = self.bytes.remaining_capacity();
        let kept = &bytes[..room.min(bytes.len())];
        self.bytes.try_extend_from_slice(kept).unwrap();
        self.is_long |= room < bytes.len();
    }
}

// The bytes up to the first line feed of those that a reader shows, and what ends them.
fn piece_of(shown: &[u8]) -> (&[u8], End)
    ensures one_line { All (λ byte. byte ≢ 10) result.0.now }
    ensures front { StartsWith shown.now (with_end result.0.now result.1) }
    ensures input { result.1 ≡ Input → shown.now ≡ [] }
{
    match memchr(b'\n', shown) {
        Some(place) => (&shown[..place], End::Feed),
        None if shown.is_empty() => (shown, End::Input),
        None => (shown, End::Shown),
    }
}
