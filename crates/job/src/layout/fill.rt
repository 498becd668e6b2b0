// The entries of a lawful job.
ghost use Rattle.std.specs.Prelude.{◌≡◌, length, take};
ghost use Rattle.job.specs.Entries.{entry_rows, LaidOut};
ghost use Rattle.job.specs.Lawful.{NearestRows};
ghost use Rattle.job.specs.Rows.{most_rows};

use crate::entry::Entry;
use crate::lawful::{MOST_ROWS, row_at};
use crate::source::JobSource;

// Puts the entries of a job in the place of those before, from the table of its nearest rows: each
// follows from the entry of its nearest row.
pub(super) fn fill_entries<S: JobSource>(
    source: &S,
    nearest: &[u16; MOST_ROWS],
    entries: &mut [Entry; MOST_ROWS],
)
    requires { NearestRows (S.JobSource.rows source.now) nearest.now }
    ensures rows { entry_rows (take (length (S.JobSource.rows source.now)) entries.new) ≡ S.JobSource.rows source.now }
    ensures laid { LaidOut (take (length (S.JobSource.rows source.now)) entries.new) }
    ensures whole { length entries.new ≡ most_rows }
{
    entries[0] = Entry::first(row_at(source, 0));
    // by number, since a source has no slice of its rows to go over
    for r in 1..source.len() {
        let p = nearest[r];
        entries[r] = entries[p as usize].inner(p, row_at(source, r));
    }
}
