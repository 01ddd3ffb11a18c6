// Lines across reads, and reads and writes that fail in mid-stream.
use crate::fakes::{Paper, Pieces};
use lines::failure::Failure;
use session::{answer_text, run};
use std::alloc::{AllocError, Global};
use std::io::ErrorKind;
use std::test::Fail;

fn paper(alloc: Global) -> Paper {
    Paper {
        taken: Vec::new(alloc),
        most: usize::MAX,
        interrupts: false,
        room: usize::MAX,
        failure: ErrorKind::StorageFull,
    }
}

fn pieces(rest: &[u8]) -> Pieces<'_> {
    Pieces {
        rest,
        most: usize::MAX,
        interrupts: false,
        failure: None,
    }
}

// `show` and spaces, so many bytes in all.
fn padded(alloc: Global, bytes: usize) -> Result<Vec<u8>, AllocError> {
    let mut line = Vec::new(alloc);
    line.extend_from_slice(b"show")?;
    line.resize(bytes, b' ')?;
    Ok(line)
}

#[test]
fn lines_may_lie_across_reads(rt: HostRuntime) -> Result<(), Fail> {
    let alloc = rt.alloc();
    let mut text = padded(alloc, 4096)?;
    text.push(b'\n')?;
    text.extend_from_slice(padded(alloc, 4097)?.as_slice())?;
    text.extend_from_slice(b"\n\r\ncolumn\t2,3\r\n# no answer\r\nshow")?;
    let wanted = b"0 0 0 0\nerror: the line is longer than 4096 bytes\n1,2\n0 0 0 0\n";
    for most in [1, 7, 4095, 4096, 4097, 8192, 65536] {
        let mut input = pieces(text.as_slice());
        input.most = most;
        let mut out = paper(alloc);
        run(alloc, &mut input, &mut out)?;
        assert_eq!(rt;
            out.taken.as_slice(),
            wanted.as_slice(),
            "{most} bytes at a time"
        );
    }
    Ok(())
}

#[test]
fn answers_before_a_failed_read_are_written(rt: HostRuntime) -> Result<(), Fail> {
    let mut input = pieces(b"row 2,3\nsho");
    input.failure = Some(ErrorKind::ConnectionReset);
    let mut out = paper(rt.alloc());
    let ended = run(rt.alloc(), &mut input, &mut out);
    assert!(rt;
        matches!(&ended, Err(Failure::Read(error)) if error.kind() == ErrorKind::ConnectionReset)
    );
    assert_eq!(rt; out.taken.as_slice(), b"3,1\n".as_slice());
    Ok(())
}

#[test]
fn a_failed_write_ends_it(rt: HostRuntime) -> Result<(), Fail> {
    let mut input = pieces(b"row 2,3\ncolumn 2,3\nshow\n");
    let mut out = paper(rt.alloc());
    out.room = 6;
    let ended = run(rt.alloc(), &mut input, &mut out);
    assert!(rt;
        matches!(&ended, Err(Failure::Write(error)) if error.kind() == ErrorKind::StorageFull)
    );
    assert_eq!(rt; out.taken.as_slice(), b"3,1\n1,".as_slice());
    Ok(())
}

#[test]
fn short_writes_and_interruptions_lose_nothing(rt: HostRuntime) -> Result<(), Fail> {
    let mut input = pieces(b"row 2,3\ncolumn 2,3\n");
    input.interrupts = true;
    let mut out = paper(rt.alloc());
    out.interrupts = true;
    out.most = 3;
    run(rt.alloc(), &mut input, &mut out)?;
    assert_eq!(rt; out.taken.as_slice(), b"3,1\n1,2\n".as_slice());
    Ok(())
}

#[test]
fn a_byte_order_mark_is_passed_over_at_the_start(rt: HostRuntime) -> Result<(), Fail> {
    let alloc = rt.alloc();
    let mut text = Vec::new(alloc);
    text.extend_from_slice(b"\xEF\xBB\xBF")?;
    // as many bytes as a line may have, without the mark
    text.extend_from_slice(padded(alloc, 4096)?.as_slice())?;
    text.extend_from_slice(b"\n\xEF\xBB\xBFshow\n")?;
    let wanted = b"0 0 0 0\nerror: word 1 (\\u{feff}show) is no command; help lists the commands\n";
    for most in [1, 2, 3, 4, 65536] {
        let mut input = pieces(text.as_slice());
        input.most = most;
        input.interrupts = true;
        let mut out = paper(alloc);
        run(alloc, &mut input, &mut out)?;
        assert_eq!(rt;
            out.taken.as_slice(),
            wanted.as_slice(),
            "{most} bytes at a time"
        );
    }
    Ok(())
}

#[test]
fn a_front_of_a_mark_is_no_mark(rt: HostRuntime) -> Result<(), Fail> {
    for (text, shown) in [
        (&b"\xEF"[..], "\\xEF"),
        (&b"\xEF\xBB"[..], "\\xEF\\xBB"),
        (&b"\xEF\xBBs\n"[..], "\\xEF\\xBBs"),
        (&b"\xEF\xBB\xBF\xEF\xBB\xBF"[..], "\\u{feff}"),
    ] {
        let mut out = Vec::new(rt.alloc());
        answer_text(rt.alloc(), text, &mut out)?;
        let wanted = format!(in rt.alloc();
            "error: word 1 ({shown}) is no command; help lists the commands\n"
        )?;
        assert_eq!(rt; out.as_slice(), wanted.as_bytes());
    }
    Ok(())
}

#[test]
fn a_line_that_is_not_obeyed_is_told_at_the_end(rt: HostRuntime) -> Result<(), Fail> {
    for (text, all_obeyed) in [
        (&b""[..], true),
        (&b"# frob\n\n \nshow\nrow 2"[..], true),
        (&b"frob\nshow\n"[..], false),
        (&b"show\noffset 0,0"[..], false),
        (&b"show 1\n# none\n"[..], false),
    ] {
        let mut out = Vec::new(rt.alloc());
        let ended = answer_text(rt.alloc(), text, &mut out)?;
        assert_eq!(rt; ended.all_obeyed, all_obeyed);
    }
    let mut out = Vec::new(rt.alloc());
    let ended = answer_text(rt.alloc(), padded(rt.alloc(), 4097)?.as_slice(), &mut out)?;
    assert!(rt; !ended.all_obeyed);
    Ok(())
}
