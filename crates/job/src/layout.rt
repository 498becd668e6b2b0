// A job laid out in fixed memory, so that what the rules ask of a row takes constant time.
ghost use Rattle.std.specs.Prelude.{◌≡◌, ◌≤◌, ◌==◌, [], length, OnErr};
ghost use Rattle.job.specs.Entries.{entry_rows, AroundRow, LaidOut};
ghost use Rattle.job.specs.Lawful.{Lawful, checked};
ghost use Rattle.job.specs.Layouts.{laid, laid_after};
ghost use Rattle.job.specs.Rows.{most_rows, row, end, nearest, finish, task};

use crate::entry::{Around, Entry};
use crate::lawful::{MOST_ROWS, nearest_rows, row_count};
use crate::refusal::JobRefusal;
use crate::row::Row;
use crate::source::JobSource;
use fill::fill_entries;

mod entries;
mod fill;

pub use entries::Layout;

// By hand, since an array of so many entries has none to derive it from.
impl Default for Layout {
    ghost use Rattle.std.specs.Prelude.{◌≡◌, []};
    ghost use Rattle.job.specs.Layouts.{laid};

    ghost is_default = { λ l. laid l ≡ [] };

    fn default() -> Layout {
        Layout::new()
    }
}

impl Layout {
    // No rows.
    pub fn new() -> Layout
        ensures { laid result ≡ [] }
    {
        Layout {
            entries: [Entry::default(); MOST_ROWS],
            count: 0,
        }
    }

    // Lays a job out in the place of the one before, unless it is refused.
    pub fn lay<S: JobSource>(&mut self, source: &S) -> Result<(), JobRefusal>
        ensures result { result ≡ checked (S.JobSource.rows source.now) }
        ensures after { laid self.new ≡ laid_after result (S.JobSource.rows source.now) (laid self.old) }
        ensures kept { OnErr result (self.new ≡ self.old) }
    {
        let count = row_count(source)?;
        let mut nearest = [0; MOST_ROWS];
        nearest_rows(source, count, &mut nearest)?;
        fill_entries(source, &nearest, &mut self.entries);
        self.count = source.len();
        Ok(())
    }

    // How many rows there are. Where there are any, they are a lawful job.
    pub fn len(&self) -> usize
        ensures rows { result ≡ length (laid self.now) }
        ensures fits { result ≤ most_rows }
        ensures lawful { 1 ≤ result → Lawful (laid self.now) }
    {
        self.count
    }

    // Whether there is no row.
    pub fn is_empty(&self) -> bool
        ensures { result ≡ (length (laid self.now) == 0) }
    {
        self.count == 0
    }

    // The entries of the rows.
    fn laid(&self) -> &[Entry]
        ensures rows { entry_rows result.now ≡ laid self.now }
        ensures right { LaidOut result.now }
        ensures fits { length result.now ≤ most_rows }
    {
        &self.entries[..self.count]
    }

    // Row r, or a row of zeros past the last.
    pub fn row(&self, r: usize) -> Row
        ensures { result ≡ row (laid self.now) r }
    {
        self.laid().get(r).copied().unwrap_or_default().row
    }

    // Where row r ends.
    #[tactic(auto, unfolding(crate::specs::Rows::end))]
    pub fn end(&self, r: usize) -> usize
        ensures { result ≡ end (laid self.now) r }
    {
        // by cases, since past the last row nothing bounds r
        match self.laid().get(r) {
            Some(entry) => r + entry.row.size as usize,
            None => r,
        }
    }

    // What is around row r, if it is a later row of the job.
    #[tactic(auto, using(crate::proofs::Laid::around_row_past))]
    fn around(&self, r: usize) -> Option<Around>
        ensures { AroundRow (laid self.now) r result }
    {
        self.laid().get(r)?.around
    }

    // The nearest row that encloses r. This, its finish and its task are three calls, since the
    // rules name the three apart.
    pub fn nearest(&self, r: usize) -> Option<usize>
        ensures { result ≡ nearest (laid self.now) r }
    {
        Some(self.around(r)?.nearest as usize)
    }

    // The nearest finish row that encloses r.
    pub fn finish(&self, r: usize) -> Option<usize>
        ensures { result ≡ finish (laid self.now) r }
    {
        Some(self.around(r)?.finish as usize)
    }

    // The nearest task that encloses r.
    pub fn task(&self, r: usize) -> Option<usize>
        ensures { result ≡ task (laid self.now) r }
    {
        Some(self.around(r)?.task as usize)
    }
}
