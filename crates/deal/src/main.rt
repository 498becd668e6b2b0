// Reads a job table from standard input and prints its totals, or why it is refused.
#![tactic(auto)]

use runs::report;
use std::io::{Read, Write};

fn main(rt: HostRuntime) -> anyhow::Result<()> {
    let mut text = Vec::new(rt.alloc());
    rt.stdin().read_to_end(&mut text)?;
    let printed = report(rt.alloc(), text.as_slice())?;
    rt.stdout().write_all(printed.as_slice())?;
    Ok(())
}
