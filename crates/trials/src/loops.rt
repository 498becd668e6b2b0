// Loops in chunks, worked from their source to their total.
use crate::rows::show;
use job::{JobSource, LoopSource, Refusal, check};
use total::{Count, fill_serial_totals};

pub fn all(rt: &HostRuntime) -> anyhow::Result<()> {
    rows(rt, 5, 2)?;
    worked(rt, 5, 2)?;
    worked(rt, 1000, 50)?;
    worked(rt, 1000, 1000)?;
    worked(rt, 7, 9)?;
    worked(rt, 1000, 1)?;
    worked(rt, 0, 5)?;
    worked(rt, 5, 0)?;
    worked(rt, 1001, 50)?;
    worked(rt, 50, 1001)
}

// Prints each row, and that there is none past the last.
fn rows(rt: &HostRuntime, iterations: usize, chunk: usize) -> anyhow::Result<()> {
    let source = LoopSource::new(iterations, chunk);
    println!(rt; "rows of {iterations} in chunks of {chunk}")?;
    for r in 0..source.len() {
        if let Some(row) = source.row(r) {
            show(rt, &format_args!("  {r}: "), row)?;
        }
    }
    let past = source.row(source.len()).is_some();
    println!(rt; "  a row past the last: {past}")?;
    Ok(())
}

// Checks a loop job, gives each row its mark as its value, and prints the total.
fn worked(rt: &HostRuntime, iterations: usize, chunk: usize) -> anyhow::Result<()> {
    let source = LoopSource::new(iterations, chunk);
    let count = source.len();
    println!(rt; "{iterations} in chunks of {chunk}: {count} rows")?;
    if let Err(refusal) = check(&source) {
        println!(rt; "  refused {}", refusal.number())?;
        return Ok(());
    }
    let mut book = Vec::new(rt.alloc());
    for r in 0..count {
        if let Some(row) = source.row(r) {
            book.push(Count {
                value: u64::from(row.mark),
            })?;
        }
    }
    let filled = fill_serial_totals(&source, &mut book).is_ok();
    if let Some(total) = book.first() {
        println!(rt; "  lawful, filled {filled}, total {}", total.value)?;
    }
    Ok(())
}
