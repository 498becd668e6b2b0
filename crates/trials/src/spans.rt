// Spans of years: made, sealed, and totalled in a series.
use crate::rows::{finish, task, work};
use job::{Kind, Refusal, TableSource};
use std::io::Write;
use table::put_total_record;
use total::{Printed, Span, Total, fill_serial_totals};

pub fn all(rt: &HostRuntime) -> anyhow::Result<()> {
    made(rt)?;
    sealed(rt)?;
    joined(rt)?;
    series(rt)
}

// Prints a span as it writes itself.
fn show(rt: &HostRuntime, name: &str, span: &Span) -> anyhow::Result<()> {
    let mut out = [46u8; 11];
    match span.write(&mut out, 0) {
        Ok(end) => println!(rt; "{name}: {end} bytes")?,
        Err(_) => println!(rt; "{name}: too long")?,
    }
    rt.stdout().write_all(&out)?;
    println!(rt; "")?;
    Ok(())
}

// Makes a span and prints it, or its refusal.
fn make(rt: &HostRuntime, name: &str, first: i32, last: i32) -> anyhow::Result<()> {
    match Span::from_years(first, last) {
        Ok(span) => show(rt, name, &span),
        Err(refusal) => {
            println!(rt; "{name}: refused {}", refusal.number())?;
            Ok(())
        }
    }
}

fn made(rt: &HostRuntime) -> anyhow::Result<()> {
    make(rt, "before and after 0", -5, 1902)?;
    make(rt, "the year 0", 0, 0)?;
    make(rt, "all years", -9999, 9999)?;
    make(rt, "the longest text", -9999, -9999)?;
    make(rt, "too early", -10000, 5)?;
    make(rt, "too late", 5, 10000)?;
    make(rt, "out of order", 6, 5)?;
    make(rt, "far out of range", 5, 65541)?;
    show(rt, "nothing", &Span::nothing())
}

// The span of two years, or nothing where there is none.
fn span(first: i32, last: i32) -> Span {
    Span::from_years(first, last).unwrap_or(Span::nothing())
}

fn sealed(rt: &HostRuntime) -> anyhow::Result<()> {
    let reign = span(1840, 1902);
    show(rt, "mark 62", &reign.seal(62))?;
    show(rt, "mark 61", &reign.seal(61))?;
    show(rt, "mark 0", &span(-9999, 9999).seal(0))?;
    show(rt, "mark 255 and 255 years", &span(1000, 1255).seal(255))?;
    show(rt, "mark 255 and 256 years", &span(1000, 1256).seal(255))?;
    show(rt, "mark 1 and all years", &span(-9999, 9999).seal(1))
}

fn joined(rt: &HostRuntime) -> anyhow::Result<()> {
    show(rt, "apart", &span(5, 9).join(&span(-3, 1)))?;
    show(rt, "one in the other", &span(5, 9).join(&span(6, 7)))?;
    show(rt, "nothing before", &Span::nothing().join(&span(6, 7)))?;
    show(rt, "nothing after", &span(6, 7).join(&Span::nothing()))?;
    let same = span(6, 7).join(&Span::nothing()) == span(6, 7);
    let other = span(6, 7) == span(6, 8);
    println!(rt; "equal {same}, unequal {other}")?;
    Ok(())
}

// A series of two files and a loose sheet: the first file keeps under its mark, the second does not.
fn series(rt: &HostRuntime) -> anyhow::Result<()> {
    let rows = [
        finish(9, 0),
        finish(3, 62),
        work(0),
        work(0),
        task(4),
        finish(3, 61),
        work(0),
        work(0),
        work(0),
    ];
    let none = Span::nothing();
    let mut book = [
        none,
        none,
        span(1840, 1851),
        span(1850, 1902),
        none,
        none,
        span(1840, 1902),
        span(1900, 1900),
        span(-5, 3),
    ];
    let filled = fill_serial_totals(&TableSource { table: &rows }, &mut book).is_ok();
    println!(rt; "series filled: {filled}")?;
    for (r, (row, total)) in rows.iter().zip(&book).enumerate() {
        if row.is(Kind::Finish) {
            let mut out = [46u8; 43];
            match put_total_record(&mut out, 0, r, total) {
                Ok(end) => println!(rt; "record of {end} bytes")?,
                Err(_) => println!(rt; "too short")?,
            }
            rt.stdout().write_all(&out)?;
            println!(rt; "")?;
        }
    }
    Ok(())
}
