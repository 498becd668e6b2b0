// The report on a job table: its header, and the totals of its finish rows or the refusal. Rows and
// their book, which has a line for each row at least, are two slices throughout, as they are lent to
// the call that fills a book in.
ghost use Rattle.std.specs.Prelude.{◌≡◌, ℕ, ◌+◌, ◌*◌, ◌<◌, ◌≤◌, length, take, IfOk, slice_index_or};
ghost use Rattle.job.specs.Rows.{row};
ghost use Rattle.total.specs.Outputs.{put};
ghost use Rattle.runs.specs.Reports.{line_text, records_below, worked, printed};

use job::{Kind, MOST_ROWS, Row, TableSource};
use std::alloc::{AllocError, Global};
use table::{put_refused_record, put_run_header, put_total_record, read_rows};
use total::{Count, Total, fill_serial_totals};

// Puts the total records of a job's finish rows, in row order, and answers the place after them.
fn put_totals(out: &mut [u8], at: usize, rows: &[Row], book: &[Count]) -> usize
    requires room { at + 52 * length rows.now ≤ length out.old }
    requires rows { length rows.now ≤ 1024 }
    requires lines { length rows.now ≤ length book.now }
    ensures place { result ≡ at + length (records_below rows.now (line_text book.now) (length rows.now)) }
    ensures after { out.new ≡ put out.old at (records_below rows.now (line_text book.now) (length rows.now)) }
    ensures fits { result ≤ length out.old }
{
    let mut place = at;
    for (r, (row, total)) in rows.iter().zip(book).enumerate() {
        if row.is(Kind::Finish) {
            place = put_total_record(out, place, r, total).unwrap();
        }
    }
    place
}

// Gives each row its mark as a count. The lines of finish and async rows are filled in later.
fn set_values(rows: &[Row], book: &mut [Count])
    requires { length rows.now ≤ length book.old }
    ensures { (k : ℕ) → k < length rows.now → (slice_index_or book.new k (record { value = 0 })).value ≡ (row rows.now k).mark }
{
    // the line by its number, since a proof knows nothing of what is written through an adapter of
    // `iter_mut`
    for (r, row) in rows.iter().enumerate() {
        book[r] = Count {
            value: u64::from(row.mark),
        };
    }
}

// Puts the totals of a job whose work rows have their marks as values, or its refusal, and answers
// the place after them.
fn put_worked(out: &mut [u8], at: usize, rows: &[Row], book: &mut [Count]) -> usize
    requires room { at + 53300 ≤ length out.old }
    requires rows { length rows.now ≤ 1024 }
    requires lines { length book.old ≡ 1024 }
    ensures place { result ≡ at + length (worked rows.now) }
    ensures after { out.new ≡ put out.old at (worked rows.now) }
    ensures fits { result ≤ length out.old }
{
    set_values(rows, book);
    match fill_serial_totals(&TableSource { table: rows }, book) {
        Ok(()) => put_totals(out, at, rows, book),
        Err(refusal) => put_refused_record(out, at, &refusal).unwrap(),
    }
}

// Puts the whole report on a text at the start of an output with room for it, and answers how
// long it is.
fn put_report(out: &mut [u8], text: &[u8], rows: &mut [Row], book: &mut [Count]) -> usize
    requires rows { length rows.old ≡ 1024 }
    requires lines { length book.old ≡ 1024 }
    requires room { 53400 ≤ length out.old }
    ensures { take result out.new ≡ printed text.now }
{
    let at = put_run_header(out, 0).unwrap();
    match read_rows(text, rows) {
        Ok(count) => put_worked(out, at, &rows[0..count], book),
        Err(fault) => put_refused_record(out, at, &fault).unwrap(),
    }
}

// The room for any report: the header, and 1,024 total records of a count. Records are put into a
// lent output, so a report lends one with room for any and cuts it once.
const REPORT_ROOM: usize = 53400;

// What is printed for a job table: the header of the run table, and then the total record of each
// finish row, where each work row has its mark as its value; or the record of the refusal of the
// table or of its job.
pub fn report(heap: Global, text: &[u8]) -> Result<Vec<u8>, AllocError>
    ensures { IfOk result (λ v. v.items ≡ printed text.now) }
{
    let mut rows = vec![in heap; Row::default(); MOST_ROWS]?;
    let mut book = vec![in heap; Count::nothing(); MOST_ROWS]?;
    let mut out = vec![in heap; 0u8; REPORT_ROOM]?;
    let size = put_report(&mut out, text, &mut rows, &mut book);
    out.truncate(size);
    Ok(out)
}
