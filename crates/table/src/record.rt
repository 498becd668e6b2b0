// The records of a job table.
ghost use Rattle.std.specs.Prelude.{◌≡◌, length};
ghost use Rattle.std.specs.Option.{ok_or};
ghost use Rattle.std.specs.Iterator.{at_most};
ghost use Rattle.table.specs.Records.{three, combined, front, header, is_header};
ghost use Rattle.table.specs.Values.{kind_of, size_of, mark_of};
ghost use Rattle.table.specs.Readings.{ok_map, of_field, as_three, as_front, text_left, GivesNext};

use crate::field::{FieldFault, Stop, read_field};
use crate::value::{read_kind, read_mark, read_size};
use job::Row;

// What is wrong with a record.
#[derive(Clone, Copy, PartialEq, Eq, Debug)]
pub enum RecordFault {
    // not three fields, or quotes against RFC 4180
    Shape,
    // the first field whose value is not allowed, by the number that is told
    Field(u8),
}

// By hand, since a clause says what it gives.
impl From<FieldFault> for RecordFault {
    ghost from_gives = { λ f r. r ≡ of_field f };

    fn from(fault: FieldFault) -> RecordFault {
        match fault {
            FieldFault::Quotes => RecordFault::Shape,
            FieldFault::Value(field) => RecordFault::Field(field),
        }
    }
}

// A record cut off the front of a text: its three fields as written, and the text after it.
#[derive(Clone, Copy)]
struct Record<'a> {
    kind: &'a [u8],
    size: &'a [u8],
    mark: &'a [u8],
    rest: &'a [u8],
}

// The record at the front of the text.
fn read_record(text: &[u8]) -> Result<Record<'_>, RecordFault>
    ensures { ok_map as_three result ≡ ok_or (three text.now) RecordFault.Shape }
{
    let kind = read_field(text)?;
    // a field that is missing ends the reading of the record right here
    let Some(size) = kind.end.next_field()? else {
        return Err(RecordFault::Shape);
    };
    let Some(mark) = size.end.next_field()? else {
        return Err(RecordFault::Shape);
    };
    let (Stop::LineEnd | Stop::TextEnd) = mark.end.stop else {
        return Err(RecordFault::Shape);
    };
    Ok(Record {
        kind: kind.raw,
        size: size.raw,
        mark: mark.raw,
        rest: mark.end.rest,
    })
}

impl Record<'_> {
    // The row that the fields mean.
    fn row(&self) -> Result<Row, RecordFault>
        ensures { result ≡ combined (kind_of self.now.kind.now) (size_of self.now.size.now)
            (mark_of self.now.mark.now) }
    {
        let kind = read_kind(self.kind).ok_or(FieldFault::Value(1))?;
        let size = read_size(self.size).ok_or(FieldFault::Value(2))?;
        let mark = read_mark(self.mark).ok_or(FieldFault::Value(3))?;
        Ok(Row {
            size,
            kind: u8::from(kind),
            mark,
        })
    }

    // Whether the fields are the header's words.
    fn is_header(&self) -> bool
        ensures { result ≡ is_header self.now.kind.now self.now.size.now self.now.mark.now }
    {
        matches!(
            (self.kind, self.size, self.mark),
            (b"kind", b"size", b"mark")
        )
    }
}

// The row of a record, and the text after it.
#[derive(Clone, Copy)]
pub struct Entry<'a> {
    pub row: Row,
    pub rest: &'a [u8],
}

// The row of the record at the front of the text.
pub fn read_entry(text: &[u8]) -> Result<Entry<'_>, RecordFault>
    ensures { ok_map as_front result ≡ front text.now }
{
    let record = read_record(text)?;
    Ok(Entry {
        row: record.row()?,
        rest: record.rest,
    })
}

// The records below the header of a text, up to the first fault.
#[derive(Drop)]
pub struct Records<'a> {
    rest: &'a [u8],
}

impl<'a> Records<'a> {
    // Reads the header.
    pub fn new(text: &'a [u8]) -> Result<Records<'a>, RecordFault>
        ensures { ok_map text_left result ≡ header text.now }
    {
        let header = read_record(text)?;
        if !header.is_header() {
            return Err(RecordFault::Shape);
        }
        Ok(Records { rest: header.rest })
    }
}

impl Iterator for Records<'_> {
    type Item = Result<Row, RecordFault>;

    ghost next_gives = { GivesNext };

    ghost remaining = { λ records. at_most (length (text_left records)) };

    fn next(&mut self) -> Option<Result<Row, RecordFault>> {
        if self.rest.is_empty() {
            return None;
        }
        match read_entry(self.rest) {
            Ok(entry) => {
                self.rest = entry.rest;
                Some(Ok(entry.row))
            }
            Err(fault) => {
                self.rest = &[];
                Some(Err(fault))
            }
        }
    }
}
