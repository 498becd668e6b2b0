// Serial totals of counts, and the refusals of a book.
use crate::rows::{finish, task, work};
use job::{Refusal, Row, TableSource};
use total::{Count, fill_serial_totals};

pub fn all(rt: &HostRuntime) -> anyhow::Result<()> {
    filled(rt)?;
    refused(rt)
}

// Prints the book of a job after it is filled in, or the refusal and the book as it was.
fn book(rt: &HostRuntime, name: &str, rows: &[Row], lines: &mut [Count]) -> anyhow::Result<()> {
    match fill_serial_totals(&TableSource { table: rows }, lines) {
        Ok(()) => println!(rt; "{name}: filled")?,
        Err(refusal) => println!(rt; "{name}: refused {}", refusal.number())?,
    }
    for line in lines.iter() {
        println!(rt; "  {}", line.value)?;
    }
    Ok(())
}

fn count(value: u64) -> Count {
    Count { value }
}

fn filled(rt: &HostRuntime) -> anyhow::Result<()> {
    let six = [finish(6, 0), task(2), work(3), task(2), work(4), work(5)];
    book(
        rt,
        "marks 3, 4, 5, and a line past the job",
        &six,
        &mut [
            count(9),
            count(9),
            count(3),
            count(9),
            count(4),
            count(5),
            count(9),
        ],
    )?;
    let sealed = [finish(5, 0), finish(2, 5), work(0), finish(2, 5), work(0)];
    book(
        rt,
        "mark 5 seals 4 to 0 and 5 to 5",
        &sealed,
        &mut [count(0), count(0), count(4), count(0), count(5)],
    )?;
    let kept = [finish(4, 9), finish(2, 0), work(0), work(0)];
    book(
        rt,
        "row 0 is not sealed itself",
        &kept,
        &mut [count(0), count(0), count(1), count(2)],
    )?;
    let wraps = [finish(3, 0), work(0), work(0)];
    book(
        rt,
        "a sum past 2^64",
        &wraps,
        &mut [count(0), count(u64::MAX), count(3)],
    )?;
    book(rt, "a lone finish row", &[finish(1, 200)], &mut [count(7)])
}

fn refused(rt: &HostRuntime) -> anyhow::Result<()> {
    book(rt, "no rows", &[], &mut [count(7)])?;
    let two = [finish(2, 0), work(0)];
    book(rt, "a book one line short", &two, &mut [count(7)])?;
    book(
        rt,
        "short before unlawful",
        &[work(0), work(0)],
        &mut [count(7)],
    )?;
    book(
        rt,
        "unlawful",
        &[work(0), work(0)],
        &mut [count(7), count(8)],
    )
}
