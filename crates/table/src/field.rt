// The fields of a text after RFC 4180, read in place: no byte is copied, and a doubled quote stays
// doubled in what is read.
ghost use Rattle.std.specs.Prelude.{◌≡◌};
ghost use Rattle.std.specs.Option.{option_map, ok_or};
ghost use Rattle.table.specs.Fields.{ends, field, onward, Mode.Plain, Mode.Quoted};
ghost use Rattle.table.specs.Readings.{ok_map, as_end, as_cut, following};

// What ends a field.
#[derive(Clone, Copy, PartialEq, Eq, Debug)]
pub enum Stop {
    Comma,
    LineEnd,
    TextEnd,
}

// The end of a field: what ends it, and the text after that.
#[derive(Clone, Copy)]
pub struct End<'a> {
    pub stop: Stop,
    pub rest: &'a [u8],
}

// A field cut off the front of a text: its bytes as written, without the outer quotes, and its end.
#[derive(Clone, Copy)]
pub struct Field<'a> {
    pub raw: &'a [u8],
    pub end: End<'a>,
}

// What is wrong with a field.
#[derive(Clone, Copy, PartialEq, Eq, Debug)]
pub enum FieldFault {
    // its quotes are against RFC 4180
    Quotes,
    // its value is not allowed in the field of this number, which is told
    Value(u8),
}

// The end of a field, if one stands at the front of the text.
fn read_end(text: &[u8]) -> Option<End<'_>>
    ensures { option_map as_end result ≡ ends text.now }
{
    let (stop, rest) = match text {
        [] => (Stop::TextEnd, text),
        [b',', rest @ ..] => (Stop::Comma, rest),
        [b'\r', b'\n', rest @ ..] => (Stop::LineEnd, rest),
        _ => return None,
    };
    Some(End { stop, rest })
}

// The field without quotes at the front of the text.
fn plain_field(text: &[u8]) -> Result<Field<'_>, FieldFault>
    ensures { ok_map as_cut result ≡ ok_or (onward Plain text.now) FieldFault.Quotes }
{
    for (len, b) in text.iter().enumerate() {
        let (raw, left) = text.split_at(len);
        if let Some(end) = read_end(left) {
            return Ok(Field { raw, end });
        }
        if *b == b'"' {
            return Err(FieldFault::Quotes);
        }
    }
    Ok(Field {
        raw: text,
        end: End {
            stop: Stop::TextEnd,
            rest: &[],
        },
    })
}

// The field in quotes whose opening quote stands just before the text.
fn quoted_field(text: &[u8]) -> Result<Field<'_>, FieldFault>
    ensures { ok_map as_cut result ≡ ok_or (onward Quoted text.now) FieldFault.Quotes }
{
    let mut left = text;
    while let [b, rest @ ..] = left {
        if *b != b'"' {
            left = rest;
        } else if let [b'"', more @ ..] = rest {
            // the two quotes stand for one
            left = more;
        } else if let Some(end) = read_end(rest) {
            let raw = &text[..text.len() - left.len()];
            return Ok(Field { raw, end });
        } else {
            return Err(FieldFault::Quotes);
        }
    }
    Err(FieldFault::Quotes)
}

// The field at the front of the text.
pub fn read_field(text: &[u8]) -> Result<Field<'_>, FieldFault>
    ensures { ok_map as_cut result ≡ ok_or (field text.now) FieldFault.Quotes }
{
    match text {
        [b'"', rest @ ..] => quoted_field(rest),
        _ => plain_field(text),
    }
}

impl<'a> End<'a> {
    // The next field of the record, or none where the record has ended.
    pub fn next_field(self) -> Result<Option<Field<'a>>, FieldFault>
        ensures { ok_map (option_map as_cut) result
            ≡ following self.entry.stop self.entry.rest.now }
    {
        let Stop::Comma = self.stop else {
            return Ok(None);
        };
        Ok(Some(read_field(self.rest)?))
    }
}
