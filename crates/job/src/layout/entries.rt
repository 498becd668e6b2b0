// The entries of a job that is laid out. They have a file of their own, since a struct with ghost
// fields imports each `ghost use` of its file, and its calls speak of what is defined over it.
ghost use Rattle.std.specs.Prelude.{◌≡◌, ◌≤◌, length, take};
ghost use Rattle.job.specs.Rows.{most_rows};
ghost use Rattle.job.specs.Entries.{LaidOut};

use crate::entry::Entry;
use crate::lawful::MOST_ROWS;

// No rows, or those of a lawful job with what was worked out of each. They are counted here, since
// an `ArrayVec` is not `Copy`.
//
// What always holds of the fields stands beside them, and clauses speak of the rows in them: a type
// that is `Copy` and has a model cannot be reached where it lies in a local array. With ghost fields
// it can, though in an array of arrays by `get` and the like alone.
#[derive(Clone, Copy, Debug)]
pub struct Layout {
    pub(super) entries: [Entry; MOST_ROWS],
    pub(super) count: usize,
    ghost sized: { length entries ≡ most_rows },
    ghost few: { count ≤ most_rows },
    ghost right: { LaidOut (take count entries) },
}
