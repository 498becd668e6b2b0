// Job tables at the edges of the format.
use crate::rows::show;
use job::{Refusal, Row};
use table::{TextFault, read_rows};

const HEADER: &[u8] = b"kind,size,mark\r\n";

pub fn all(rt: &HostRuntime) -> anyhow::Result<()> {
    headers(rt)?;
    ends(rt)?;
    quotes(rt)?;
    bare_bytes(rt)?;
    numbers(rt)?;
    shapes(rt)?;
    orders(rt)?;
    many_rows(rt)?;
    long_texts(rt)
}

// Prints what a whole text reads as, into a table of three rows.
fn text(rt: &HostRuntime, name: &str, bytes: &[u8]) -> anyhow::Result<()> {
    let mut rows = [Row::default(); 3];
    match read_rows(bytes, &mut rows) {
        Ok(count) => {
            println!(rt; "{name}: read {count}")?;
            for row in rows.iter().take(count) {
                show(rt, &"  ", *row)?;
            }
            Ok(())
        }
        Err(fault) => refused(rt, name, &fault),
    }
}

// Prints a refusal with all that it tells.
fn refused(rt: &HostRuntime, name: &str, fault: &TextFault) -> anyhow::Result<()> {
    let number = fault.number();
    match fault {
        TextFault::TooLong => println!(rt; "{name}: refused {number}")?,
        TextFault::Record { line } | TextFault::Full { line } => {
            println!(rt; "{name}: refused {number} line {line}")?
        }
        TextFault::Field { line, field } => println!(rt;
            "{name}: refused {number} line {line} field {field}"
        )?,
    }
    Ok(())
}

// The same of what stands after a good header.
fn records(rt: &HostRuntime, name: &str, bytes: &[u8]) -> anyhow::Result<()> {
    let mut whole = Vec::from_slice(rt.alloc(), HEADER)?;
    whole.extend_from_slice(bytes)?;
    text(rt, name, whole.as_slice())
}

fn headers(rt: &HostRuntime) -> anyhow::Result<()> {
    text(rt, "empty text", b"")?;
    text(rt, "header alone", b"kind,size,mark\r\n")?;
    text(rt, "header alone, no line end", b"kind,size,mark")?;
    text(
        rt,
        "header in quotes",
        b"\"kind\",\"size\",\"mark\"\r\nwork,1,7\r\n",
    )?;
    text(
        rt,
        "one word of the header in quotes",
        b"kind,\"size\",mark\r\nwork,1,7\r\n",
    )?;
    text(
        rt,
        "capital in the header",
        b"Kind,size,mark\r\nwork,1,7\r\n",
    )?;
    text(
        rt,
        "longer word in the header",
        b"kind,size,marks\r\nwork,1,7\r\n",
    )?;
    text(rt, "header of two fields", b"kind,size\r\nwork,1,7\r\n")?;
    text(
        rt,
        "header of four fields",
        b"kind,size,mark,\r\nwork,1,7\r\n",
    )?;
    text(rt, "no header", b"work,1,7\r\n")
}

fn ends(rt: &HostRuntime) -> anyhow::Result<()> {
    records(rt, "one record", b"finish,2,5\r\n")?;
    records(rt, "one record, no line end", b"finish,2,5")?;
    records(rt, "three records", b"finish,3,0\r\nasync,2,0\r\nwork,1,9")?;
    records(rt, "empty record", b"\r\n")?;
    records(rt, "empty record at the end", b"work,1,7\r\n\r\n")
}

fn quotes(rt: &HostRuntime) -> anyhow::Result<()> {
    records(rt, "kind in quotes", b"\"async\",2,0\r\n")?;
    records(rt, "size in quotes", b"work,\"1\",7\r\n")?;
    records(rt, "mark in quotes", b"work,1,\"7\"\r\n")?;
    records(rt, "mark in quotes, no line end", b"work,1,\"7\"")?;
    records(rt, "all in quotes", b"\"finish\",\"1024\",\"255\"\r\n")?;
    records(rt, "quote doubled in a kind", b"\"wo\"\"rk\",1,7\r\n")?;
    records(rt, "quote doubled in a size", b"work,\"1\"\"\",7\r\n")?;
    records(rt, "only a doubled quote", b"\"\"\"\",1,7\r\n")?;
    records(rt, "nothing in quotes", b"\"\",1,7\r\n")?;
    records(rt, "comma in quotes", b"\"wo,rk\",1,7\r\n")?;
    records(rt, "line end in quotes", b"\"work\r\n\",1,7\r\n")?;
    records(rt, "quote inside a plain field", b"wo\"rk,1,7\r\n")?;
    records(rt, "quote at the end of a plain field", b"work\",1,7\r\n")?;
    records(rt, "byte after a closing quote", b"\"work\"x,1,7\r\n")?;
    records(rt, "space after a closing quote", b"work,\"1\" ,7\r\n")?;
    records(rt, "bare CR after a closing quote", b"work,1,\"7\"\r")?;
    records(rt, "quote never closed", b"work,1,\"7\r\n")
}

fn bare_bytes(rt: &HostRuntime) -> anyhow::Result<()> {
    records(rt, "bare CR in a kind", b"work\r,1,7\r\n")?;
    records(rt, "bare LF in a kind", b"work\n,1,7\r\n")?;
    records(rt, "bare LF at the end", b"work,1,7\n")?;
    records(rt, "bare CR at the end", b"work,1,7\r")?;
    records(rt, "CR before a line end", b"work,1,7\r\r\n")?;
    records(rt, "bare LF in quotes", b"\"work\n\",1,7\r\n")?;
    text(rt, "lines that end in LF", b"kind,size,mark\nwork,1,7\n")?;
    records(rt, "bytes above 127 in a kind", b"w\xc3\xb6rk,1,7\r\n")?;
    records(rt, "bytes above 127 in a mark", b"work,1,\xff\r\n")?;
    records(rt, "a zero byte", b"work\x00,1,7\r\n")
}

fn numbers(rt: &HostRuntime) -> anyhow::Result<()> {
    records(rt, "size 0", b"work,0,7\r\n")?;
    records(rt, "size 1024", b"finish,1024,7\r\n")?;
    records(rt, "size 1025", b"finish,1025,7\r\n")?;
    records(rt, "size with a leading zero", b"work,01,7\r\n")?;
    records(
        rt,
        "size of many digits",
        b"work,18446744073709551617,7\r\n",
    )?;
    records(rt, "mark 0", b"work,1,0\r\n")?;
    records(rt, "mark 255", b"work,1,255\r\n")?;
    records(rt, "mark 256", b"work,1,256\r\n")?;
    records(rt, "mark 00", b"work,1,00\r\n")?;
    records(rt, "mark with a leading zero", b"work,1,07\r\n")?;
    records(rt, "mark with a sign", b"work,1,+7\r\n")?;
    records(rt, "mark with a space", b"work,1, 7\r\n")
}

fn shapes(rt: &HostRuntime) -> anyhow::Result<()> {
    records(rt, "empty kind", b",1,7\r\n")?;
    records(rt, "empty size", b"work,,7\r\n")?;
    records(rt, "empty mark", b"work,1,\r\n")?;
    records(rt, "three empty fields", b",,\r\n")?;
    records(rt, "one field", b"work\r\n")?;
    records(rt, "two fields", b"work,1\r\n")?;
    records(rt, "four fields", b"work,1,7,\r\n")?;
    records(rt, "capital in a kind", b"Work,1,7\r\n")?;
    records(rt, "shorter word", b"wor,1,7\r\n")?;
    records(rt, "longer word", b"works,1,7\r\n")
}

fn orders(rt: &HostRuntime) -> anyhow::Result<()> {
    records(rt, "shape before value", b"wark,1\r\n")?;
    records(rt, "leftmost value", b"wark,0,256\r\n")?;
    records(rt, "second value", b"work,0,256\r\n")?;
    records(rt, "first bad record", b"work,0,7\r\nwork\r\n")?;
    records(rt, "second bad record", b"work,1,7\r\nwork\r\n")?;
    records(
        rt,
        "full table",
        b"work,1,1\r\nwork,1,2\r\nwork,1,3\r\nwork,1,4\r\n",
    )?;
    records(
        rt,
        "value before a full table",
        b"work,1,1\r\nwork,1,2\r\nwork,1,3\r\nwork,1,256\r\n",
    )?;
    records(
        rt,
        "shape before a full table",
        b"work,1,1\r\nwork,1,2\r\nwork,1,3\r\nwork,1\r\n",
    )
}

// Prints what so many rows and then another read as, into a table of room for so many.
fn repeated(
    rt: &HostRuntime,
    name: &str,
    count: usize,
    last: &[u8],
    room: usize,
) -> anyhow::Result<()> {
    let mut bytes = Vec::from_slice(rt.alloc(), HEADER)?;
    for _ in 0..count {
        bytes.extend_from_slice(b"work,1,7\r\n")?;
    }
    bytes.extend_from_slice(last)?;
    let mut rows = vec![in rt.alloc(); Row::default(); room]?;
    match read_rows(bytes.as_slice(), &mut rows) {
        Ok(filled) => println!(rt; "{name}: read {filled}")?,
        Err(fault) => refused(rt, name, &fault)?,
    }
    Ok(())
}

fn many_rows(rt: &HostRuntime) -> anyhow::Result<()> {
    repeated(rt, "1,024 rows", 1024, b"", 1024)?;
    repeated(rt, "1,025 rows", 1025, b"", 1024)
}

// The header has 16 bytes and each row 10, so 6,552 rows make 65,536.
fn long_texts(rt: &HostRuntime) -> anyhow::Result<()> {
    repeated(rt, "65,536 bytes", 6551, b"work,1,7\r\n", 6552)?;
    repeated(rt, "65,537 bytes", 6551, b"work,1,77\r\n", 6552)?;
    repeated(
        rt,
        "65,537 bytes, the last record bad",
        6551,
        b"work,1,777\n",
        6552,
    )
}
