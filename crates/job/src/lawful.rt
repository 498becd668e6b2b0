// The check of a job: its number of rows, and the lowest unlawful row.
ghost use Rattle.std.specs.Prelude.{◌≡◌, ℕ, ◌<◌, ◌≤◌, length, Some, Ok, IfOk, slice_index};
ghost use Rattle.job.specs.Lawful.{row_count, checked, lawful_row, Judged, NearestRows, Nests};
ghost use Rattle.job.specs.Rows.{row, end, nearest};

use crate::refusal::JobRefusal;
use crate::row::Row;
use crate::source::JobSource;

// The most rows that a job may have.
pub const MOST_ROWS: usize = 1024;

// Checks a job: refused where it has no rows or too many, or by its lowest unlawful row.
#[tactic(auto, using(crate::proofs::Nests::judged))]
pub fn check<S: JobSource>(source: &S) -> Result<(), JobRefusal>
    ensures result { result ≡ checked (S.JobSource.rows source.now) }
    ensures judged { Judged (S.JobSource.rows source.now) result }
    ensures nests { result ≡ Ok tt → Nests (S.JobSource.rows source.now) }
{
    let count = row_count(source)?;
    let mut nearest = [0; MOST_ROWS];
    nearest_rows(source, count, &mut nearest)
}

// How many rows a job has, refused where there are none or too many.
pub fn row_count<S: JobSource>(source: &S) -> Result<usize, JobRefusal>
    ensures { result ≡ row_count (length (S.JobSource.rows source.now)) }
{
    let count = source.len();
    if (1..=MOST_ROWS).contains(&count) {
        Ok(count)
    } else {
        Err(JobRefusal::RowCount)
    }
}

// Notes the nearest enclosing row of each row but row 0 in the table; refused as the check says. One
// pass: each row looks for its own among those that the row before it lies in, so that every row is
// left behind once. The table is the caller's: as the answer it would be copied, which takes longer
// than the check of a small job. The count is the caller's too, so that a job refused by it needs no
// table.
pub(crate) fn nearest_rows<S: JobSource>(
    source: &S,
    count: usize,
    nearest: &mut [u16; MOST_ROWS],
) -> Result<(), JobRefusal>
    requires { Ok count ≡ row_count (length (S.JobSource.rows source.now)) }
    ensures result { result ≡ checked (S.JobSource.rows source.now) }
    ensures near { IfOk result (λ u. NearestRows (S.JobSource.rows source.now) nearest.new) }
{
    if !first_is_lawful(source, count) {
        return Err(JobRefusal::Unlawful(0));
    }
    // by number, since a source has no slice of its rows to go over; of the table, that of row 0 is
    // never read
    for r in 1..count {
        let p = climb(source, nearest, r);
        if !is_lawful(source, r, p) {
            return Err(JobRefusal::Unlawful(r));
        }
        nearest[r] = p as u16;
    }
    Ok(())
}

// Whether row 0 is lawful; no row encloses it.
fn first_is_lawful<S: JobSource>(source: &S, count: usize) -> bool
    requires { count ≡ length (S.JobSource.rows source.now) }
    ensures { result ≡ lawful_row (S.JobSource.rows source.now) 0 }
{
    let first = row_at(source, 0);
    first.is_whole(count) && first.is_known() && first.has_own_shape()
}

// Whether a later row is lawful, by its nearest enclosing row.
#[tactic(auto, using(crate::proofs::Climbing::lower))]
fn is_lawful<S: JobSource>(source: &S, r: usize, p: usize) -> bool
    requires later { (0 < r) × (r < 1024) }
    requires near { nearest (S.JobSource.rows source.now) r ≡ Some p }
    ensures { result ≡ lawful_row (S.JobSource.rows source.now) r }
{
    let here = row_at(source, r);
    here.is_known() && here.has_own_shape() && end_at(source, r) <= end_at(source, p)
}

// The nearest row that encloses r, from the table of the nearest rows before r: what has ended by
// r is left behind, one row at a time.
fn climb<S: JobSource>(source: &S, table: &[u16; MOST_ROWS], r: usize) -> usize
    requires later { (0 < r) × (r < 1024) }
    requires whole { r < end (S.JobSource.rows source.now) 0 }
    requires tabled { (q : ℕ) → 0 < q → q < r → nearest (S.JobSource.rows source.now) q ≡ Some (slice_index table.now q) }
    ensures { nearest (S.JobSource.rows source.now) r ≡ Some result }
{
    let mut p = r - 1;
    while end_at(source, p) <= r {
        p = table[p] as usize;
    }
    p
}

// Where row r ends. That r is below 1,024 is asked here and above: a type for such numbers would be
// asked of every source, which answers any number.
#[tactic(auto, unfolding(crate::specs::Rows::end))]
fn end_at<S: JobSource>(source: &S, r: usize) -> usize
    requires { r < 1024 }
    ensures { result ≡ end (S.JobSource.rows source.now) r }
{
    r + row_at(source, r).size as usize
}

// Row r, or a row of zeros past the last.
#[tactic(auto, using(crate::proofs::RowRead::read_some, crate::proofs::RowRead::read_none))]
pub fn row_at<S: JobSource>(source: &S, r: usize) -> Row
    ensures { result ≡ row (S.JobSource.rows source.now) r }
{
    source.row(r).unwrap_or_default()
}
