// How a program ends: the status, and what is told on standard error.
ghost use Rattle.std.specs.Prelude.{◌≡◌, ◌↔◌, ◌≤◌, IfOk, IfErr};
ghost use Rattle.std.specs.Process.{exit_status};
ghost use Rattle.lines.specs.Ended.{IsClosedPipe, IsSuccess};
ghost use Rattle.program.specs.Status.{status_after};

use lines::failure::Failure;
use session::Ended;
use std::process::ExitCode;

// The status if a line was answered with an error or a refusal, and this is asked for.
const NOT_ALL_OBEYED: u8 = 3;

/// The status to end with. What failed is told on standard error behind the program's name, but for a closed pipe; a failed read
/// by the name of what was read.
pub fn status(rt: &HostRuntime, name: &str, source: &str, ended: Result<(), Failure>) -> ExitCode
    ensures success { (exit_status result ≡ 0) ↔ IsSuccess ended }
    ensures few { exit_status result ≤ 1 }
{
    match ended {
        Ok(()) => ExitCode::SUCCESS,
        Err(failure) if failure.is_closed_pipe() => ExitCode::SUCCESS,
        Err(failure) => {
            // if this write fails too, the status is what is left to tell
            let _ = match failure {
                Failure::Read(error) => eprintln!(rt; "{name}: cannot read {source}: {error}"),
                Failure::Write(error) => {
                    eprintln!(rt; "{name}: cannot write standard output: {error}")
                }
                other => eprintln!(rt; "{name}: {other}"),
            };
            ExitCode::FAILURE
        }
    }
}

/// The status to end with after lines. If `strict` is true, it also tells whether each line was obeyed.
pub fn status_of_lines(
    rt: &HostRuntime,
    name: &str,
    source: &str,
    ended: Result<Ended, Failure>,
    strict: bool,
) -> ExitCode
    ensures lines { IfOk ended (λ ended. exit_status result ≡ status_after strict ended.all_obeyed) }
    ensures failure { IfErr ended (λ why. (exit_status result ≡ 0) ↔ IsClosedPipe why) }
    ensures few { IfErr ended (λ why. exit_status result ≤ 1) }
{
    match ended {
        Ok(ended) if strict && !ended.all_obeyed => ExitCode::from(NOT_ALL_OBEYED),
        Ok(_) => ExitCode::SUCCESS,
        Err(failure) => status(rt, name, source, Err(failure)),
    }
}
