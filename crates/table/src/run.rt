// The records of a run table, put into a lent output. A record is measured before its first byte
// is put, so that an output that is too short stays as it was. An output and a place in it are two
// parameters, as `put_bytes` has them.
ghost use Rattle.std.specs.Prelude.{◌≡◌, ◌+◌, ◌-◌, ◌^◌, ◌≤◌, min, true, length, is_ok, nat_le};
ghost use Rattle.job.specs.Refusals.{place};
ghost use Rattle.total.specs.Outputs.{put, put_end};
ghost use Rattle.table.specs.RunTables.{run_header, total_record, refused_record};

use itoa::Buffer;
use job::Refusal;
use total::{OutputRefusal, Printed, has_room, integer_len, put_bytes, put_pieces};

// Puts the header of a run table at a place of the output, and answers the place after it.
pub fn put_run_header(out: &mut [u8], at: usize) -> Result<usize, OutputRefusal>
    ensures result { result ≡ put_end out.old at run_header }
    ensures after { out.new ≡ put out.old at run_header }
{
    put_bytes(out, at, b"worker,action,row,closed,next,total\r\n")
}

// A room in which each total record of a kind fits: the longest text, and 32 bytes for the rest.
pub fn total_record_room<P: Printed>() -> usize
    ensures { result ≡ min (P.Printed.LONGEST + 32) (2 ^ 64 - 1) }
{
    P::LONGEST.saturating_add(32)
}

// Puts the total of a finish row at a place of the output, and answers the place after it. In a
// room of LONGEST and 32 bytes more no total is refused.
pub fn put_total_record<P: Printed>(
    out: &mut [u8],
    at: usize,
    row: usize,
    total: &P,
) -> Result<usize, OutputRefusal>
    ensures result { result ≡ put_end out.old at (total_record row (P.Printed.text total.now)) }
    ensures after { out.new ≡ put out.old at (total_record row (P.Printed.text total.now)) }
    ensures granted { at + (P.Printed.LONGEST + 32) ≤ length out.old → is_ok result ≡ true }
{
    if !has_room_around(out, at, 12 + integer_len(row), total.text_len()) {
        return Err(OutputRefusal::TooShort);
    }
    let mut number = Buffer::new();
    let front = [b",total,", number.format(row).as_bytes(), b",,,"];
    let text = put_pieces(out, at, &front)?;
    let end = total.write(out, text)?;
    put_bytes(out, end, b"\r\n")
}

// Whether a text and so many bytes around it have room in the output from `at` on.
fn has_room_around(out: &[u8], at: usize, frame: usize, text: usize) -> bool
    ensures { result ≡ nat_le (at + (frame + text)) (length out.now) }
{
    frame
        .checked_add(text)
        .is_some_and(|size| has_room(out, at, size))
}

// Puts a refusal at a place of the output, and answers the place after it. In a room of 54 bytes
// none is refused.
pub fn put_refused_record<R: Refusal>(
    out: &mut [u8],
    at: usize,
    refusal: &R,
) -> Result<usize, OutputRefusal>
    ensures result { result ≡ put_end out.old at (refused_record (R.Refusal.numbered refusal.now) (place (R.Refusal.told refusal.now))) }
    ensures after { out.new ≡ put out.old at (refused_record (R.Refusal.numbered refusal.now) (place (R.Refusal.told refusal.now))) }
    ensures granted { at + 54 ≤ length out.old → is_ok result ≡ true }
{
    let mut number = Buffer::new();
    let number = number.format(refusal.number()).as_bytes();
    let mut place = Buffer::new();
    let told: &[u8] = match refusal.place() {
        Some(n) => place.format(n).as_bytes(),
        None => b"",
    };
    put_pieces(out, at, &[b",refused,", number, b",,", told, b",\r\n"])
}
