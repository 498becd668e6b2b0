// Where the rows of a job come from.
ghost use Rattle.std.specs.Prelude.{◌≡◌, List, length};
ghost use Rattle.std.specs.List.{slice_get};
ghost use Rattle.job.specs.declared.row.Row.{Row};

use crate::row::Row;

// A source tells how many rows it has and gives row n, or none past the last. What it means is
// its list of rows; being read leaves it as it was.
pub trait JobSource {
    ghost rows: { Self → List Row };

    fn len(&self) -> usize
        ensures { result ≡ length (rows self.now) };

    fn row(&self, n: usize) -> Option<Row>
        ensures { result ≡ slice_get (rows self.now) n };
}

// The table source serves the rows of a lent slice.
#[derive(Clone, Copy)]
pub struct TableSource<'a> {
    pub table: &'a [Row],
}

impl<'a> JobSource for TableSource<'a> {
    ghost rows = { λ s. s.table.now };

    fn len(&self) -> usize {
        self.table.len()
    }

    fn row(&self, n: usize) -> Option<Row> {
        self.table.get(n).copied()
    }
}
