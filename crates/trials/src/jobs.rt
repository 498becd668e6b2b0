// The check of jobs: lawful ones, and each way to break a rule.
use crate::rows::{finish, row, task, work};
use job::{Refusal, Row, TableSource, check};

pub fn all(rt: &HostRuntime) -> anyhow::Result<()> {
    lawful(rt)?;
    first_rows(rt)?;
    later_rows(rt)?;
    counts(rt)
}

// Prints what the check says of these rows.
fn judged(rt: &HostRuntime, name: &str, rows: &[Row]) -> anyhow::Result<()> {
    match check(&TableSource { table: rows }) {
        Ok(()) => println!(rt; "{name}: lawful")?,
        Err(refusal) => match refusal.place() {
            Some(place) => println!(rt; "{name}: refused {} row {place}", refusal.number())?,
            None => println!(rt; "{name}: refused {}", refusal.number())?,
        },
    }
    Ok(())
}

fn lawful(rt: &HostRuntime) -> anyhow::Result<()> {
    judged(rt, "a lone finish row", &[finish(1, 9)])?;
    judged(rt, "work in a task", &[finish(3, 0), task(2), work(5)])?;
    judged(
        rt,
        "a finish in a task in a finish",
        &[finish(4, 0), task(3), finish(2, 7), task(1)],
    )?;
    judged(
        rt,
        "two tasks side by side",
        &[finish(5, 0), task(2), work(1), task(2), work(2)],
    )
}

fn first_rows(rt: &HostRuntime) -> anyhow::Result<()> {
    judged(rt, "work as row 0", &[work(0)])?;
    judged(rt, "a task as row 0", &[task(1)])?;
    judged(rt, "row 0 too small", &[finish(1, 0), work(0)])?;
    judged(rt, "row 0 too large", &[finish(3, 0), work(0)])
}

fn later_rows(rt: &HostRuntime) -> anyhow::Result<()> {
    judged(rt, "kind 3", &[finish(3, 0), work(0), row(3, 1, 0)])?;
    judged(rt, "size 0", &[finish(3, 0), finish(0, 0), work(0)])?;
    judged(
        rt,
        "work of size 2",
        &[finish(3, 0), Row { size: 2, ..work(0) }, work(0)],
    )?;
    judged(
        rt,
        "a task with a mark",
        &[finish(3, 0), work(0), Row { mark: 1, ..task(1) }],
    )?;
    judged(rt, "past the job", &[finish(3, 0), work(0), task(2)])?;
    judged(
        rt,
        "past its encloser",
        &[finish(5, 0), task(2), finish(2, 0), work(0), work(0)],
    )?;
    judged(
        rt,
        "up to the end of its encloser",
        &[finish(5, 0), task(3), finish(2, 0), work(0), work(0)],
    )?;
    judged(
        rt,
        "the lower of two",
        &[
            finish(4, 0),
            work(0),
            Row { mark: 1, ..task(1) },
            row(3, 1, 0),
        ],
    )
}

// A finish row that holds so many rows of work less one.
fn wide(rt: &HostRuntime, name: &str, count: u16) -> anyhow::Result<()> {
    let mut rows = Vec::new(rt.alloc());
    rows.push(finish(count, 0))?;
    for _ in 1..count {
        rows.push(work(1))?;
    }
    judged(rt, name, rows.as_slice())
}

// Tasks each inside the one before, below row 0.
fn deep(rt: &HostRuntime, name: &str, count: u16) -> anyhow::Result<()> {
    let mut rows = Vec::new(rt.alloc());
    rows.push(finish(count, 0))?;
    for r in 1..count {
        rows.push(task(count - r))?;
    }
    judged(rt, name, rows.as_slice())
}

fn counts(rt: &HostRuntime) -> anyhow::Result<()> {
    judged(rt, "no rows", &[])?;
    wide(rt, "1,024 rows of a job", 1024)?;
    wide(rt, "1,025 rows of a job", 1025)?;
    deep(rt, "1,024 rows in one another", 1024)
}
