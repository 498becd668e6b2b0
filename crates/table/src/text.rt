// Whole job tables.
ghost use Rattle.std.specs.Prelude.{◌≡◌, length, IsOk};
ghost use Rattle.table.specs.Faults.{text_number, text_told};
ghost use Rattle.table.specs.Laws.{ReadsWritings};
ghost use Rattle.table.specs.Texts.{at_line, read, counted, written};

use crate::record::{RecordFault, Records};
use job::{Refusal, Row};

// Why a text is no job table, with the line of the first bad record. Lines count records.
#[derive(Clone, Copy, PartialEq, Eq, Debug)]
pub enum TextFault {
    // more than 65,536 bytes
    TooLong,
    // not three fields, quotes against RFC 4180, or another header
    Record { line: usize },
    // a value that its field does not allow; fields are told by number, as a table has them
    Field { line: usize, field: u8 },
    // a good record for which the row table has no place left
    Full { line: usize },
}

impl Refusal for TextFault {
    ghost numbered = { text_number };

    ghost told = { text_told };

    fn number(&self) -> u8 {
        match self {
            TextFault::TooLong => 14,
            TextFault::Record { .. } => 15,
            TextFault::Field { .. } => 16,
            TextFault::Full { .. } => 17,
        }
    }

    fn place(&self) -> Option<usize> {
        match self {
            TextFault::TooLong => None,
            TextFault::Record { line } | TextFault::Field { line, .. } | TextFault::Full { line } =>
                Some(*line),
        }
    }
}

// A record's result as its text's: a trait, so that it is said where the result is passed up.
trait OnLine<T> {
    // A fault gets the record's line.
    fn at_line(self, line: usize) -> Result<T, TextFault>;
}

impl<T> OnLine<T> for Result<T, RecordFault> {
    fn at_line(self, line: usize) -> Result<T, TextFault>
        ensures { result ≡ at_line line self }
    {
        self.map_err(|fault| match fault {
            RecordFault::Shape => TextFault::Record { line },
            RecordFault::Field(field) => TextFault::Field { line, field },
        })
    }
}

// The most bytes of a job table.
const MOST_BYTES: usize = 65536;

// Reads the whole text and counts its rows, of which there may be as many as there is room.
fn count_rows(text: &[u8], room: usize) -> Result<usize, TextFault>
    ensures { result ≡ counted (read room text.now) }
{
    if text.len() > MOST_BYTES {
        return Err(TextFault::TooLong);
    }
    // the count is the answer, so an enumeration would be no plainer
    let mut count = 0;
    for record in Records::new(text).at_line(1)? {
        let line = count + 2;
        record.at_line(line)?;
        if count >= room {
            return Err(TextFault::Full { line });
        }
        count += 1;
    }
    Ok(count)
}

// Writes the rows of a text that `count_rows` has read to the end.
fn fill_rows(text: &[u8], rows: &mut [Row])
    requires { IsOk (read (length rows.old) text.now) }
    ensures { rows.new ≡ written (read (length rows.old) text.now) rows.old }
{
    let Ok(records) = Records::new(text) else {
        unreachable!()
    };
    // by index, since a proof knows nothing of what is written through an adapter of `iter_mut`
    for (i, record) in records.enumerate() {
        let Ok(row) = record else { unreachable!() };
        rows[i] = row;
    }
}

// Fills the table from its start with the rows of the text, and answers how many there are. What
// stands past them stays, and on a refusal all of it stays. Each writing of a table that the format
// allows is read as the rows that it writes.
#[tactic(auto, using(crate::proofs::RoundTrip::reads_writings))]
pub fn read_rows(text: &[u8], rows: &mut [Row]) -> Result<usize, TextFault>
    ensures result { result ≡ counted (read (length rows.old) text.now) }
    ensures after { rows.new ≡ written (read (length rows.old) text.now) rows.old }
    ensures reads_writings { ReadsWritings }
{
    let count = count_rows(text, rows.len())?;
    fill_rows(text, rows);
    Ok(count)
}
