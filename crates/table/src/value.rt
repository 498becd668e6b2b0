// The values of a row's fields, from their bytes as written. A doubled quote stands for one quote,
// and no word and no number has a quote, so the bytes are compared as they are.
ghost use Rattle.std.specs.Prelude.{◌≡◌};
ghost use Rattle.std.specs.Option.{option_map};
ghost use Rattle.job.specs.Kinds.{kind_number};
ghost use Rattle.table.specs.Values.{kind_of, number_of, within, size_of, mark_of};

use job::Kind;

// The kind that the word names.
pub fn read_kind(raw: &[u8]) -> Option<Kind>
    ensures { option_map kind_number result ≡ kind_of raw.now }
{
    match raw {
        b"work" => Some(Kind::Work),
        b"finish" => Some(Kind::Finish),
        b"async" => Some(Kind::Async),
        _ => None,
    }
}

// The number that decimal digits write, without a leading zero, if it fits. By hand, since `parse`
// takes a sign and leading zeros, and a chain with `try_fold` leaves the sum unproved.
fn read_number(raw: &[u8]) -> Option<u16>
    ensures { result ≡ within 0 65535 (number_of raw.now) }
{
    if let [] | [b'0', _, ..] = raw {
        return None;
    }
    let mut n: u16 = 0;
    for b in raw {
        if !b.is_ascii_digit() {
            return None;
        }
        n = n.checked_mul(10)?.checked_add(u16::from(*b - b'0'))?;
    }
    Some(n)
}

pub fn read_size(raw: &[u8]) -> Option<u16>
    ensures { result ≡ size_of raw.now }
{
    read_number(raw).filter(|n| (1..=1024).contains(n))
}

pub fn read_mark(raw: &[u8]) -> Option<u8>
    ensures { result ≡ mark_of raw.now }
{
    read_number(raw).and_then(|n| u8::try_from(n).ok())
}
