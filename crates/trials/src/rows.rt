// Rows for the jobs that are tried.
use job::{Kind, Row};
use std::fmt::Display;

// Prints a row's three numbers, after something on the line, at once.
pub fn show<D: Display>(rt: &HostRuntime, before: &D, row: Row) -> anyhow::Result<()> {
    println!(rt;
        "{before}kind {} size {} mark {}",
        row.kind, row.size, row.mark
    )?;
    Ok(())
}

// A row of any kind, size and mark, lawful or not: its kind is a number, so that there are rows of
// no kind.
pub fn row(kind: u8, size: u16, mark: u8) -> Row {
    Row { size, kind, mark }
}

pub fn work(mark: u8) -> Row {
    row(Kind::Work.into(), 1, mark)
}

// A finish row that counts itself and what lies inside.
pub fn finish(size: u16, mark: u8) -> Row {
    row(Kind::Finish.into(), size, mark)
}

// An async row that counts itself and what lies inside.
pub fn task(size: u16) -> Row {
    row(Kind::Async.into(), size, 0)
}
