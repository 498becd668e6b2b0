// Books: one total for each row of a job, and the serial totals of its finish rows.
ghost use Rattle.std.specs.Prelude.{◌≡◌, ℕ, ◌+◌, ◌<◌, ◌≤◌, true, map, length, if◌then◌else◌, slice_index_or};
ghost use Rattle.job.specs.Lawful.{Lawful};
ghost use Rattle.job.specs.Rows.{row, is_finish};
ghost use Rattle.total.specs.Books.{book_number, book_told, filling, keeps_line, keeps, changed};
ghost use Rattle.total.specs.Serial.{line_of, with_line, gathered, serial, SerialTotals, OneSerialTotal, filled};
ghost use Rattle.total.specs.declared.book.BookRefusal.TheVariants.{Job};

use crate::kind::Total;
use job::{JobRefusal, JobSource, Kind, Refusal, Row, check, row_at, row_count};

// Why a book was not filled in.
#[derive(Clone, Copy, PartialEq, Eq, Debug)]
pub enum BookRefusal {
    // the job is at fault
    Job(JobRefusal),
    // the book has fewer lines than the job has rows
    Short,
}

impl Refusal for BookRefusal {
    ghost numbered = { book_number };

    ghost told = { book_told };

    fn number(&self) -> u8 {
        match self {
            BookRefusal::Job(refusal) => refusal.number(),
            BookRefusal::Short => 4,
        }
    }

    fn place(&self) -> Option<usize> {
        match self {
            BookRefusal::Job(refusal) => refusal.place(),
            BookRefusal::Short => None,
        }
    }
}

// By hand, since a clause says what it gives.
impl From<JobRefusal> for BookRefusal {
    ghost from_gives = { λ e r. r ≡ Job e };

    fn from(fault: JobRefusal) -> BookRefusal {
        BookRefusal::Job(fault)
    }
}

// Fills in a book whose work lines hold the values of a job: each finish line gets its serial
// total and each async line nothing. Work lines, lines past the job and, where the call is
// refused, all lines stay the very same values. No other totals follow the rule of the serial ones.
#[tactic(auto, using(crate::proofs::SerialLaws::serial_rule))]
pub fn fill_serial_totals<S: JobSource, K: Total + Drop>(
    source: &S,
    book: &mut [K],
) -> Result<(), BookRefusal>
    ensures result { result ≡ filling (S.JobSource.rows source.now) (length book.old) }
    ensures after { map K.Total.meaning book.new ≡ changed (filled K.Total.none K.Total.joined K.Total.sealed (S.JobSource.rows source.now)) result (map K.Total.meaning book.old) }
    ensures same { (k : ℕ) (d : K) → keeps (S.JobSource.rows source.now) result k ≡ true → slice_index_or book.new k d ≡ slice_index_or book.old k d }
    ensures rule { (value : ℕ → K.Total.Meaning) → SerialTotals K.Total.none K.Total.joined K.Total.sealed (S.JobSource.rows source.now) value (serial K.Total.none K.Total.joined K.Total.sealed (S.JobSource.rows source.now) value) }
    ensures alone { (value : ℕ → K.Total.Meaning) → OneSerialTotal K.Total.none K.Total.joined K.Total.sealed (S.JobSource.rows source.now) value }
{
    let count = row_count(source)?;
    if book.len() < count {
        return Err(BookRefusal::Short);
    }
    check(source)?;
    fill_lines(source, book);
    Ok(())
}

// A sum with the line of one row more.
fn with_row<K: Total + Drop>(sum: K, x: Row, line: &K) -> K
    ensures { K.Total.meaning result ≡ with_line K.Total.none K.Total.joined K.Total.sealed x (K.Total.meaning sum) (K.Total.meaning line.now) }
{
    match x.kind() {
        Some(Kind::Work) => sum.join(line),
        Some(Kind::Finish) => sum.join(&line.seal(x.mark)),
        _ => sum,
    }
}

// The row at which a walk through a finish row goes on after row r: past a finish row and all that
// lies inside it, else at the row after r, which is a number that a row can have.
fn next_row(x: Row, r: usize) -> usize
    requires { r < 1024 }
    ensures { result ≡ (if is_finish x then r + x.size else r + 1) }
{
    if x.is(Kind::Finish) {
        r + x.size as usize
    } else {
        r + 1
    }
}

// What the own rows of the finish row f bring, from a book whose work lines hold the values and
// whose finish lines after f hold the totals. Each row is visited for its own finish alone.
fn gather<S: JobSource, K: Total + Drop>(source: &S, book: &[K], f: usize) -> K
    requires lawful { Lawful (S.JobSource.rows source.now) }
    requires inside { f < length (S.JobSource.rows source.now) }
    requires wide { length (S.JobSource.rows source.now) ≤ length book.now }
    requires finish { is_finish (row (S.JobSource.rows source.now) f) ≡ true }
    ensures { K.Total.meaning result ≡ gathered K.Total.none K.Total.joined K.Total.sealed (S.JobSource.rows source.now) (line_of K.Total.none (map K.Total.meaning book.now)) f (length (S.JobSource.rows source.now)) }
{
    let end = f + row_at(source, f).size as usize;
    let mut sum = K::nothing();
    let mut r = f + 1;
    // a walk that steps over what lies in a finish row, so no range gives its rows
    while r < end {
        let x = row_at(source, r);
        sum = with_row(sum, x, &book[r]);
        r = next_row(x, r);
    }
    sum
}

// Fills in a book whose work lines hold the values, from the last row to the first, so that the
// totals inside a finish row stand in the book before its own is gathered.
fn fill_lines<S: JobSource, K: Total + Drop>(source: &S, book: &mut [K])
    requires lawful { Lawful (S.JobSource.rows source.now) }
    requires wide { length (S.JobSource.rows source.now) ≤ length book.old }
    ensures after { map K.Total.meaning book.new ≡ filled K.Total.none K.Total.joined K.Total.sealed (S.JobSource.rows source.now) (map K.Total.meaning book.old) }
    ensures same { (k : ℕ) (d : K) → keeps_line (S.JobSource.rows source.now) k ≡ true → slice_index_or book.new k d ≡ slice_index_or book.old k d }
{
    // by number, since a source has no slice of its rows to go over
    for r in (0..source.len()).rev() {
        match row_at(source, r).kind() {
            Some(Kind::Finish) => book[r] = gather(source, book, r),
            Some(Kind::Async) => book[r] = K::nothing(),
            _ => {}
        }
    }
}
