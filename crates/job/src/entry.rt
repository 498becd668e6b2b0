// One row of a job that is laid out.
ghost use Rattle.std.specs.Prelude.{◌≡◌};
ghost use Rattle.job.specs.Entries.{first_entry, inner_entry};

use crate::kind::Kind;
use crate::row::Row;

// What the rules ask of a row that others enclose: its nearest enclosing row, its finish and its
// task.
#[derive(Clone, Copy, PartialEq, Eq, Debug)]
pub struct Around {
    pub nearest: u16,
    pub finish: u16,
    pub task: u16,
}

// The row, and what is around it: nothing is around row 0.
#[derive(Clone, Copy, Default, PartialEq, Eq, Debug)]
pub struct Entry {
    pub row: Row,
    pub around: Option<Around>,
}

impl Entry {
    // The entry of row 0.
    pub fn first(row: Row) -> Entry
        ensures { result ≡ first_entry row }
    {
        Entry { row, around: None }
    }

    // The entry of a row that this one, which has the number p, is the nearest row around.
    pub fn inner(self, p: u16, row: Row) -> Entry
        ensures { result ≡ inner_entry self p row }
    {
        let around = match self.around {
            // row 0 is a finish row and a task
            None => Around {
                nearest: p,
                finish: p,
                task: p,
            },
            Some(outer) => Around {
                nearest: p,
                finish: if self.row.is(Kind::Finish) {
                    p
                } else {
                    outer.finish
                },
                task: if self.row.is(Kind::Async) {
                    p
                } else {
                    outer.task
                },
            },
        };
        Entry {
            row,
            around: Some(around),
        }
    }
}
