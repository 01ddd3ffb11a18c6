// Answers the examples, from a file: those of docs/RULES.md, of docs/WHY.md, of docs/DIFFERENCES.md, of docs/TRACE.md and of the README.
#![tactic(auto)]

use std::process::ExitCode;

fn main(rt: HostRuntime) -> ExitCode {
    program::run(rt, "examples")
}
