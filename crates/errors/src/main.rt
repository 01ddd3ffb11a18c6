// Answers lines that are refused or are errors, and lines of every form.
#![tactic(auto)]

use std::process::ExitCode;

fn main(rt: HostRuntime) -> ExitCode {
    program::run(rt, "errors")
}
