// Job tables written to a lent output.
ghost use Rattle.std.specs.Prelude.{◌≡◌, ℕ, ◌+◌, ◌≤◌, length, take, IfOk, Ok, nat_le};
ghost use Rattle.total.specs.Outputs.{put, put_end};
ghost use Rattle.table.specs.declared.write.WriteFault.TheVariants.{Short};
ghost use Rattle.table.specs.JobTexts.{kind_word, row_text, table_text, bad_field, first_bad, unless_bad, write_end, write_after, write_number, write_told};
ghost use Rattle.table.specs.Texts.{read};

use itoa::Buffer;
use job::{Kind, Refusal, Row};
use total::{OutputRefusal, integer_len, put_bytes, put_pieces};

// Why rows are not written.
#[derive(Clone, Copy, PartialEq, Eq, Debug)]
pub enum WriteFault {
    // the first value that no job table can hold, by the line and the number of the field that it
    // would have, which are told
    Field { line: usize, field: u8 },
    // the output is too short
    Short,
}

impl Refusal for WriteFault {
    ghost numbered = { write_number };

    ghost told = { write_told };

    fn number(&self) -> u8 {
        match self {
            WriteFault::Field { line: _, field: _ } => 16,
            WriteFault::Short => 18,
        }
    }

    fn place(&self) -> Option<usize> {
        match self {
            WriteFault::Field { line, field: _ } => Some(*line),
            WriteFault::Short => None,
        }
    }
}

// By hand, since a clause says what it gives.
impl From<OutputRefusal> for WriteFault {
    ghost from_gives = { λ e f. f ≡ Short };

    fn from(refusal: OutputRefusal) -> WriteFault {
        match refusal {
            OutputRefusal::TooShort => WriteFault::Short,
        }
    }
}

// The first line of a job table.
const HEADER: &[u8] = b"kind,size,mark\r\n";

// The number of the first field whose value no job table can hold.
fn bad_field(row: Row) -> Option<u8>
    ensures { result ≡ bad_field row }
{
    if row.kind().is_none() {
        Some(1)
    } else if !(1..=1024).contains(&row.size) {
        Some(2)
    } else {
        None
    }
}

// Whether a job table can hold the rows.
fn check_rows(rows: &[Row]) -> Result<(), WriteFault>
    ensures { result ≡ unless_bad (first_bad 2 rows.now) }
{
    for (i, row) in rows.iter().enumerate() {
        if let Some(field) = bad_field(*row) {
            return Err(WriteFault::Field { line: i + 2, field });
        }
    }
    Ok(())
}

// The word for a row's kind. A row of no kind is never written.
fn kind_word(row: Row) -> &'static [u8]
    ensures { result.now ≡ kind_word row.kind }
{
    match row.kind() {
        Some(Kind::Work) => b"work",
        Some(Kind::Finish) => b"finish",
        _ => b"async",
    }
}

fn row_len(row: Row) -> usize
    ensures { result ≡ length (row_text row) }
{
    kind_word(row).len() + integer_len(row.size) + integer_len(row.mark) + 4
}

// Whether the table of these rows has no more bytes than there is room for. The room that is left
// is counted down, since the bytes might be more than a number holds. Pieces are measured likewise;
// one function for both would say in its contract what an iterator of lengths yields.
fn table_fits(rows: &[Row], room: usize) -> bool
    ensures { result ≡ nat_le (length (table_text rows.now)) room }
{
    if room < HEADER.len() {
        return false;
    }
    let mut left = room - HEADER.len();
    for row in rows {
        let len = row_len(*row);
        if len > left {
            return false;
        }
        left -= len;
    }
    true
}

// Puts a row's record, as `put_bytes` does its bytes.
fn put_row(out: &mut [u8], at: usize, row: Row) -> Result<usize, OutputRefusal>
    ensures result { result ≡ put_end out.old at (row_text row) }
    ensures after { out.new ≡ put out.old at (row_text row) }
{
    let mut size = Buffer::new();
    let mut mark = Buffer::new();
    let fields = [
        kind_word(row),
        b",",
        size.format(row.size).as_bytes(),
        b",",
        mark.format(row.mark).as_bytes(),
        b"\r\n",
    ];
    put_pieces(out, at, &fields)
}

// Puts the table of the rows at the start of the output, as `put_bytes` does bytes.
fn put_table(rows: &[Row], out: &mut [u8]) -> Result<usize, OutputRefusal>
    ensures result { result ≡ put_end out.old 0 (table_text rows.now) }
    ensures after { out.new ≡ put out.old 0 (table_text rows.now) }
{
    if !table_fits(rows, out.len()) {
        return Err(OutputRefusal::TooShort);
    }
    let mut at = put_bytes(out, 0, HEADER)?;
    for row in rows {
        at = put_row(out, at, *row)?;
    }
    Ok(at)
}

// Writes the job table of the rows to the start of the output, and answers how many bytes it has.
// What stands past them stays, and on a refusal all of it stays. A table of at most 65,536 bytes
// is read back as these very rows.
pub fn write_rows(rows: &[Row], out: &mut [u8]) -> Result<usize, WriteFault>
    ensures result { result ≡ write_end rows.now out.old }
    ensures after { out.new ≡ write_after rows.now out.old }
    ensures reads_back { IfOk result (λ n. n ≤ 65536 → (room : ℕ) → length rows.now ≤ room → read room (take n out.new) ≡ Ok rows.now) }
{
    check_rows(rows)?;
    Ok(put_table(rows, out)?)
}
