// Job tables and records of run tables, written into outputs that just fit and that are one byte
// too short.
use crate::rows::{finish, row, task, work};
use job::{JobRefusal, Refusal, Row};
use std::io::Write;
use table::{WriteFault, put_refused_record, put_run_header, put_total_record, write_rows};
use total::{Count, OutputRefusal};

pub fn all(rt: &HostRuntime) -> anyhow::Result<()> {
    tables(rt)?;
    refused_rows(rt)?;
    headers(rt)?;
    totals(rt)?;
    refusals(rt)
}

// Whether no byte of the output was written.
fn untouched(out: &[u8]) -> bool {
    out.iter().all(|b| *b == 46)
}

// Prints what is written of the rows into an output of this size, all dots before.
fn table(rt: &HostRuntime, name: &str, rows: &[Row], size: usize) -> anyhow::Result<()> {
    let mut out = vec![in rt.alloc(); 46u8; size]?;
    match write_rows(rows, &mut out) {
        Ok(count) => {
            println!(rt; "{name}: {count} bytes")?;
            rt.stdout().write_all(out.as_slice())?;
            println!(rt; "")?;
        }
        Err(fault) => {
            let number = fault.number();
            let kept = untouched(out.as_slice());
            match fault {
                WriteFault::Field { line, field } => println!(rt;
                    "{name}: refused {number} line {line} field {field}, untouched {kept}"
                )?,
                WriteFault::Short => println!(rt; "{name}: refused {number}, untouched {kept}")?,
            }
        }
    }
    Ok(())
}

fn tables(rt: &HostRuntime) -> anyhow::Result<()> {
    let rows = [
        finish(3, 0),
        Row {
            mark: 255,
            ..task(1024)
        },
        work(9),
    ];
    table(rt, "three rows in a longer output", &rows, 60)?;
    table(rt, "three rows in an output that fits", &rows, 54)?;
    table(rt, "three rows in an output one byte short", &rows, 53)?;
    table(rt, "no rows", &[], 16)?;
    table(rt, "no rows and no room", &[], 15)
}

fn refused_rows(rt: &HostRuntime) -> anyhow::Result<()> {
    table(rt, "kind 3", &[finish(1, 0), row(3, 1, 0)], 60)?;
    table(rt, "size 0", &[finish(0, 0)], 60)?;
    table(
        rt,
        "size 1025",
        &[finish(1, 0), work(0), finish(1025, 0)],
        60,
    )?;
    table(rt, "value before room", &[row(9, 0, 0)], 0)
}

// Prints where a record ended, and the whole output after it.
fn record(
    rt: &HostRuntime,
    name: &str,
    res: Result<usize, OutputRefusal>,
    out: &[u8],
) -> anyhow::Result<()> {
    match res {
        Ok(end) => {
            println!(rt; "{name}: up to {end}")?;
            rt.stdout().write_all(out)?;
            println!(rt; "")?;
        }
        Err(OutputRefusal::TooShort) => {
            let kept = untouched(out);
            println!(rt; "{name}: too short, untouched {kept}")?;
        }
    }
    Ok(())
}

fn headers(rt: &HostRuntime) -> anyhow::Result<()> {
    let mut out = [46u8; 40];
    let end = put_run_header(&mut out, 3);
    record(rt, "header at 3", end, &out)?;
    let mut out = [46u8; 40];
    let end = put_run_header(&mut out, 4);
    record(rt, "header at 4", end, &out)?;
    let mut out = [46u8; 40];
    let end = put_run_header(&mut out, usize::MAX);
    record(rt, "header far past the output", end, &out)
}

fn totals(rt: &HostRuntime) -> anyhow::Result<()> {
    let most = Count { value: u64::MAX };
    let mut out = [46u8; 36];
    let end = put_total_record(&mut out, 0, 1023, &most);
    record(rt, "largest count of row 1023", end, &out)?;
    let mut out = [46u8; 35];
    let end = put_total_record(&mut out, 0, 1023, &most);
    record(rt, "the same one byte short", end, &out)?;
    let mut out = [46u8; 20];
    let end = put_total_record(&mut out, 2, 0, &Count { value: 0 });
    record(rt, "nothing of row 0", end, &out)
}

fn refusals(rt: &HostRuntime) -> anyhow::Result<()> {
    let mut out = [46u8; 20];
    let end = put_refused_record(&mut out, 0, &JobRefusal::Unlawful(12));
    record(rt, "unlawful row 12", end, &out)?;
    let mut out = [46u8; 15];
    let end = put_refused_record(&mut out, 0, &JobRefusal::RowCount);
    record(rt, "number of rows", end, &out)?;
    let mut out = [46u8; 14];
    let end = put_refused_record(&mut out, 0, &JobRefusal::RowCount);
    record(rt, "the same one byte short", end, &out)
}
