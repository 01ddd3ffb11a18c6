// Answers lines about layouts: the program for people.
#![tactic(auto)]

use std::process::ExitCode;

fn main(rt: HostRuntime) -> ExitCode {
    program::run(rt, "layout")
}
