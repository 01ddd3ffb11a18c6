// Answers the calls that the Rust was asked (docs/CASES.md).
#![tactic(auto)]

use std::process::ExitCode;

fn main(rt: HostRuntime) -> ExitCode {
    program::run(rt, "from_rust")
}
