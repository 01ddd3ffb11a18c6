// Lines of standard input, or of a file, answered on standard output.
ghost use Rattle.std.specs.Prelude.{◌≡◌, ◌≢◌, ◌≤◌, IfOk};
ghost use Rattle.std.specs.Process.{exit_status};
ghost use Rattle.clap.specs.Values.{kind_of};
ghost use Rattle.lines.specs.declared.failure.Failure.TheVariants.{Memory};
ghost use Rattle.clap.specs.declared.error.kind.ErrorKind.TheVariants.{OutOfMemory, DisplayHelp, DisplayVersion};

use crate::status::{status, status_of_lines};
use clap::error::ErrorKind;
use clap::{Arg, ArgAction, Command, Error};
use commands::reply::Reply;
use commands::topic::Topic;
use lines::failure::Failure;
use session::Ended;
use std::alloc::{AllocError, Global};
use std::fs::File;
use std::io::{BufReader, BufWriter, IsTerminal, Read};
use std::process::ExitCode;
use std::{env, io};

// The bytes that are read, and written, at once.
const BUFFER_BYTES: usize = 65536;

// The status of a command line that is not understood.
const NOT_UNDERSTOOD: u8 = 2;

const VERSION: &str = "0.4.0";

const ABOUT: &str = "Answers lines of words about strided layouts, each with a line";

// The one argument.
const FILE: &str = "FILE";

// The one argument that stands for standard input.
const STANDARD_INPUT: &str = "-";

// The one flag of our own.
const STRICT: &str = "strict";

// What stands in front of the words of usages.
const LINE: &str =
    "A line is a command and its words, with spaces or tabs between them; one that begins with # is a comment.";

// The words of a line, the refusals and the commands, as `help` explains them.
fn lines_help(alloc: Global) -> Result<String, AllocError> {
    let words = Reply::Help(Topic::Words);
    let refusals = Reply::Help(Topic::Refusals);
    let commands = Reply::AllHelp;
    format!(in alloc; "{LINE}\n\nWords:\n{words}\n\nRefusals:\n{refusals}\n\nCommands:\n{commands}")
}

// What the command line takes.
fn command_line<'a>(alloc: Global, name: &'a str, help: &'a str) -> Result<Command<'a>, Error> {
    let file = Arg::new(alloc, FILE).help(
        "The lines, in place of standard input; - for standard input",
    );
    let strict = Arg::new(alloc, STRICT)
        .long(STRICT)
        .action(ArgAction::SetTrue)
        .help("End with status 3 if a line was an error or was refused");
    let taken = Command::new(alloc, name).version(VERSION).about(ABOUT);
    Ok(taken.after_help(help).arg(strict)?.arg(file)?)
}

// What a buffer fails with that is not made.
fn no_memory(_error: io::Error) -> Failure
    ensures { result ≡ Memory }
{
    Failure::Memory
}

// Answers the lines of a reader to its end.
fn answer<R: Read + Drop>(rt: &HostRuntime, reader: R) -> Result<Ended, Failure> {
    let alloc = rt.alloc();
    let mut input = BufReader::with_capacity(alloc, BUFFER_BYTES, reader).map_err(no_memory)?;
    let mut out = BufWriter::with_capacity(alloc, BUFFER_BYTES, rt.stdout()).map_err(no_memory)?;
    session::run(alloc, &mut input, &mut out)
}

// Answers standard input. Whoever sits at a terminal is told first what it waits for.
fn answer_input(rt: &HostRuntime, name: &str) -> Result<Ended, Failure> {
    if rt.stdin().is_terminal() {
        // the lines are answered also if this write fails
        let _ = eprintln!(rt;
            "{name}: a line of words in, an answer out; help lists the commands, end with Ctrl-D"
        );
    }
    answer(rt, rt.stdin())
}

fn answer_file(rt: &HostRuntime, path: &str) -> Result<Ended, Failure> {
    let file = File::open(rt, path).map_err(Failure::Read)?;
    answer(rt, file)
}

// Does what the words of the command line ask for.
fn obey(rt: &HostRuntime, name: &str, words: &[String]) -> Result<ExitCode, Error>
    ensures few { IfOk result (λ code. exit_status code ≤ 3) }
    ensures understood { IfOk result (λ code. exit_status code ≢ 2) }
{
    let alloc = rt.alloc();
    let help = lines_help(alloc)?;
    let taken = command_line(alloc, name, help.as_str())?;
    let matches = taken.try_get_matches_from(words)?;
    let strict = matches.get_flag(STRICT);
    let code = match matches.get_str(FILE) {
        None | Some(STANDARD_INPUT) => {
            status_of_lines(rt, name, "standard input", answer_input(rt, name), strict)
        }
        Some(path) => status_of_lines(rt, name, path, answer_file(rt, path), strict),
    };
    Ok(code)
}

// The words of the command line, the program's own first.
fn words(rt: &HostRuntime) -> io::Result<Vec<String>> {
    Ok(env::args(rt)?.collect(rt.alloc())?)
}

// The status of a command line that no lines were answered for, and what is told of it.
fn status_of_error(rt: &HostRuntime, name: &str, error: Error) -> ExitCode
    ensures memory { kind_of error ≡ OutOfMemory → exit_status result ≡ 1 }
    ensures mistake { (kind_of error ≢ OutOfMemory) → (kind_of error ≢ DisplayHelp)
        → (kind_of error ≢ DisplayVersion) → exit_status result ≡ 2 }
    ensures few { exit_status result ≤ 2 }
{
    if error.kind() == ErrorKind::OutOfMemory {
        return status(rt, name, "the command line", Err(Failure::Memory));
    }
    let printed = error.print(rt);
    if error.use_stderr() {
        return ExitCode::from(NOT_UNDERSTOOD);
    }
    // what --help or --version asks for
    status(
        rt,
        name,
        "the command line",
        printed.map_err(Failure::Write),
    )
}

/// Does what the command line asks for. The status is 0 if the input has ended or the reader of the answers has closed the pipe,
/// and after `--help` and `--version`; 1 if something fails; 2 if the command line is not understood; 3 if `--strict` is given
/// and a line was answered with an error or a refusal.
pub fn run(rt: HostRuntime, name: &str) -> ExitCode
    ensures { exit_status result ≤ 3 }
{
    match words(&rt) {
        Ok(words) => match obey(&rt, name, words.as_slice()) {
            Ok(code) => code,
            Err(error) => status_of_error(&rt, name, error),
        },
        Err(error) if error.kind() == io::ErrorKind::OutOfMemory => {
            status(&rt, name, "the command line", Err(Failure::Memory))
        }
        Err(error) => {
            let _ = eprintln!(rt; "{name}: cannot read the command line: {error}");
            ExitCode::from(NOT_UNDERSTOOD)
        }
    }
}
