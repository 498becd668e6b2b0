// Examples and edge cases, worked by the library and printed, to be held against a stored output
// that was worked out by hand. Each case prints what it is to show, so that refusals are printed
// where they are tried, in the words of each.
#![tactic(auto)]

mod jobs;
mod loops;
mod reading;
mod rows;
mod spans;
mod totals;
mod writing;

use cases::worked_cases;

fn main(rt: HostRuntime) -> anyhow::Result<()> {
    let cases = worked_cases();
    println!(rt; "worked cases proved: {cases}")?;
    reading::all(&rt)?;
    jobs::all(&rt)?;
    totals::all(&rt)?;
    writing::all(&rt)?;
    loops::all(&rt)?;
    spans::all(&rt)
}
