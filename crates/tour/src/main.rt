// A program to copy: four things that callers of the library do, in plain Rattle. It claims nothing, so it has no proof file.
// The check proves all the same that it is safe and that it ends.
#![tactic(auto)]

mod records;
mod scratch;
mod undecided;
mod write;

use anyhow::Result;

fn main(rt: HostRuntime) -> Result<()> {
    write::show(&rt)?;
    scratch::show(&rt)?;
    records::show(&rt)?;
    undecided::show(&rt)
}
