// A reader that waits and a writer that holds back: what was answered is passed on before each read that may wait.
use lines::failure::Failure;
use session::run;
use std::cell::Cell;
use std::io::{BufRead, ErrorKind, Read, Write};
use std::test::Fail;
use std::{cmp, io};

/// Shows a line at a time, and notes at each read behind what it has shown how much had been passed on by then.
#[derive(Drop)]
struct Asked<'a> {
    rest: &'a [u8],
    /// How many bytes of those that were shown are left.
    shown: usize,
    passed_on: &'a Cell<usize>,
    seen: Vec<usize>,
    /// What the read behind the last byte fails with, in place of the end.
    failure: Option<ErrorKind>,
}

impl Read for Asked<'_> {
    fn read(&mut self, buf: &mut [u8]) -> io::Result<usize> {
        let shown = self.fill_buf()?;
        let count = cmp::min(shown.len(), buf.len());
        buf[..count].copy_from_slice(&shown[..count]);
        self.consume(count);
        Ok(count)
    }
}

impl BufRead for Asked<'_> {
    fn fill_buf(&mut self) -> io::Result<&[u8]> {
        if self.shown == 0 {
            self.seen.push(self.passed_on.get())?;
            match self.failure {
                Some(kind) if self.rest.is_empty() => return Err(kind.into()),
                _ => {}
            }
            let feed = self.rest.iter().position(|byte| *byte == b'\n');
            self.shown = feed.map_or(self.rest.len(), |place| place + 1);
        }
        Ok(&self.rest[..self.shown.min(self.rest.len())])
    }

    fn consume(&mut self, amount: usize) {
        let taken = amount.min(self.shown).min(self.rest.len());
        self.rest = &self.rest[taken..];
        self.shown -= taken;
    }
}

/// Holds back what it takes until it is flushed.
#[derive(Drop)]
struct Holding<'a> {
    taken: usize,
    passed_on: &'a Cell<usize>,
}

impl Write for Holding<'_> {
    fn write(&mut self, buf: &[u8]) -> io::Result<usize> {
        self.taken = self.taken.saturating_add(buf.len());
        Ok(buf.len())
    }

    fn flush(&mut self) -> io::Result<()> {
        self.passed_on.set(self.taken);
        Ok(())
    }
}

#[test]
fn answers_are_passed_on_before_each_wait(rt: HostRuntime) -> Result<(), Fail> {
    let passed_on = Cell::new(0);
    let mut input = Asked {
        rest: b"row 2,3\n# none\nshow\ncolumn 2,3",
        shown: 0,
        passed_on: &passed_on,
        seen: Vec::new(rt.alloc()),
        failure: None,
    };
    let mut out = Holding {
        taken: 0,
        passed_on: &passed_on,
    };
    run(rt.alloc(), &mut input, &mut out)?;
    // the last line is shown without its end: the read behind it waits, too
    assert_eq!(rt; input.seen.as_slice(), [0, 4, 4, 12, 12].as_slice());
    assert_eq!(rt; passed_on.get(), 16);
    Ok(())
}

#[test]
fn answers_are_passed_on_before_a_read_fails(rt: HostRuntime) -> Result<(), Fail> {
    let passed_on = Cell::new(0);
    let mut input = Asked {
        rest: b"row 2,3\nshow\ncol",
        shown: 0,
        passed_on: &passed_on,
        seen: Vec::new(rt.alloc()),
        failure: Some(ErrorKind::ConnectionReset),
    };
    let mut out = Holding {
        taken: 0,
        passed_on: &passed_on,
    };
    let ended = run(rt.alloc(), &mut input, &mut out);
    assert!(rt;
        matches!(&ended, Err(Failure::Read(error)) if error.kind() == ErrorKind::ConnectionReset)
    );
    assert_eq!(rt; passed_on.get(), 12);
    Ok(())
}
