// Bytes put into a lent output.
ghost use Rattle.std.specs.Prelude.{◌≡◌, ◌+◌, ◌≤◌, length, decimal, nat_le};
ghost use Rattle.total.specs.Outputs.{put, put_end, pieced, output_number, output_told};

use itoa::{Buffer, Integer};
use job::Refusal;

// Why bytes were not put into an output.
#[derive(Clone, Copy, PartialEq, Eq, Debug)]
pub enum OutputRefusal {
    // they have no room
    TooShort,
}

impl Refusal for OutputRefusal {
    ghost numbered = { output_number };

    ghost told = { output_told };

    fn number(&self) -> u8 {
        match self {
            OutputRefusal::TooShort => 18,
        }
    }

    fn place(&self) -> Option<usize> {
        match self {
            OutputRefusal::TooShort => None,
        }
    }
}

// Whether so many bytes have room in the output from `at` on.
pub fn has_room(out: &[u8], at: usize, count: usize) -> bool
    ensures { result ≡ nat_le (at + count) (length out.now) }
{
    // `at` may be any number, so the two are never added up.
    at <= out.len() && count <= out.len() - at
}

// Puts the bytes into the output from `at` on, and answers the place after them. Where they have
// no room the output stays as it was. The output and the place are two parameters here and above:
// each function of a struct that holds the `&mut` would promise two things more, of the place and
// of the reference.
pub fn put_bytes(out: &mut [u8], at: usize, bytes: &[u8]) -> Result<usize, OutputRefusal>
    ensures result { result ≡ put_end out.old at bytes.now }
    ensures after { out.new ≡ put out.old at bytes.now }
{
    if !has_room(out, at, bytes.len()) {
        return Err(OutputRefusal::TooShort);
    }
    let end = at + bytes.len();
    out[at..end].copy_from_slice(bytes);
    Ok(end)
}

// Whether the pieces have room in an output of this size from `at` on. What is left is counted
// down, since their bytes may be more than a number holds.
#[tactic(auto, using(crate::proofs::Outputs::pieces_room))]
fn pieces_fit(size: usize, at: usize, pieces: &[&[u8]]) -> bool
    ensures { result ≡ nat_le (at + length (pieced pieces.now)) size }
{
    if at > size {
        return false;
    }
    let mut left = size - at;
    for piece in pieces {
        if piece.len() > left {
            return false;
        }
        left -= piece.len();
    }
    true
}

// Puts the pieces one after the other, as `put_bytes` does bytes: all of them, or none.
pub fn put_pieces(out: &mut [u8], at: usize, pieces: &[&[u8]]) -> Result<usize, OutputRefusal>
    ensures result { result ≡ put_end out.old at (pieced pieces.now) }
    ensures after { out.new ≡ put out.old at (pieced pieces.now) }
{
    if !pieces_fit(out.len(), at, pieces) {
        return Err(OutputRefusal::TooShort);
    }
    let mut next = at;
    for piece in pieces {
        next = put_bytes(out, next, piece)?;
    }
    Ok(next)
}

// Puts n into the output in decimal, as `put_bytes` does. Where no type is written, a number is of
// 64 bits.
pub fn put_number(out: &mut [u8], at: usize, n: u64) -> Result<usize, OutputRefusal>
    ensures result { result ≡ put_end out.old at (decimal n) }
    ensures after { out.new ≡ put out.old at (decimal n) }
{
    put_integer(out, at, n)
}

// How many digits n has.
pub fn number_len(n: u64) -> usize
    ensures size { result ≡ length (decimal n) }
    ensures few { result ≤ 20 }
{
    integer_len(n)
}

// Puts an integer of any type into the output in decimal, as `put_bytes` does.
pub fn put_integer<I: Integer>(out: &mut [u8], at: usize, n: I) -> Result<usize, OutputRefusal>
    ensures result { result ≡ put_end out.old at (I.Integer.text n) }
    ensures after { out.new ≡ put out.old at (I.Integer.text n) }
{
    let mut buffer = Buffer::new();
    let digits = buffer.format(n).as_bytes();
    put_bytes(out, at, digits)
}

// How many bytes an integer of any type has in decimal.
pub fn integer_len<I: Integer>(n: I) -> usize
    ensures size { result ≡ length (I.Integer.text n) }
    ensures few { result ≤ I.Integer.MAX_STR_LEN }
{
    let mut buffer = Buffer::new();
    buffer.format(n).len()
}
