// A reader and a writer that show or take few bytes at a time, are interrupted once, and fail.
use std::io::{BufRead, ErrorKind, Read, Write};
use std::{cmp, io};

/// Shows at most so many of its bytes at once.
#[derive(Drop)]
pub struct Pieces<'a> {
    pub rest: &'a [u8],
    pub most: usize,
    /// Whether the next read is interrupted.
    pub interrupts: bool,
    /// What the read behind the last byte fails with, in place of the end.
    pub failure: Option<ErrorKind>,
}

impl Read for Pieces<'_> {
    fn read(&mut self, buf: &mut [u8]) -> io::Result<usize> {
        let shown = self.fill_buf()?;
        let count = cmp::min(shown.len(), buf.len());
        buf[..count].copy_from_slice(&shown[..count]);
        self.consume(count);
        Ok(count)
    }
}

impl BufRead for Pieces<'_> {
    fn fill_buf(&mut self) -> io::Result<&[u8]> {
        if self.interrupts {
            self.interrupts = false;
            return Err(ErrorKind::Interrupted.into());
        }
        match self.failure {
            Some(kind) if self.rest.is_empty() => Err(kind.into()),
            _ => Ok(&self.rest[..self.most.min(self.rest.len())]),
        }
    }

    fn consume(&mut self, amount: usize) {
        self.rest = &self.rest[amount.min(self.rest.len())..];
    }
}

/// Takes at most so many bytes at once, and fails when it is full.
#[derive(Drop)]
pub struct Paper {
    pub taken: Vec<u8>,
    pub most: usize,
    /// Whether the next write is interrupted.
    pub interrupts: bool,
    pub room: usize,
    pub failure: ErrorKind,
}

impl Write for Paper {
    fn write(&mut self, buf: &[u8]) -> io::Result<usize> {
        if self.interrupts {
            self.interrupts = false;
            return Err(ErrorKind::Interrupted.into());
        }
        let room = self.room.saturating_sub(self.taken.len());
        if room == 0 {
            return Err(self.failure.into());
        }
        let count = buf.len().min(self.most).min(room);
        self.taken.extend_from_slice(&buf[..count])?;
        Ok(count)
    }

    fn flush(&mut self) -> io::Result<()> {
        Ok(())
    }
}
