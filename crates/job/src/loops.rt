// The loop source: a loop whose iterations are worked in chunks.
ghost use Rattle.std.specs.Prelude.{◌≡◌, ◌+◌, ◌-◌, ◌^◌, ◌<◌, ◌≤◌, min, true, ◌&&◌, length, nat_le};
ghost use Rattle.job.specs.Loops.{most_iterations, has_loop, work_row, holding, all_chunks, loop_rows, source_rows, LoopLaw};
ghost use Rattle.job.specs.Rows.{row};

use crate::kind::Kind;
use crate::row::Row;
use crate::source::JobSource;

// The most iterations of a loop, and the most for a chunk.
const MOST_ITERATIONS: usize = 1000;

// A finish row encloses an async row for each chunk, which encloses a work row for each of its
// iterations. The rows are worked out, not stored. There are none where a number is 0 or too large.
#[derive(Clone, Copy)]
pub struct LoopSource {
    iterations: usize,
    chunk: usize,
}

impl LoopSource {
    // The loop of so many iterations, in chunks of so many.
    #[tactic(auto, using(crate::proofs::LoopLaw::loop_law))]
    pub fn new(iterations: usize, chunk: usize) -> LoopSource
        ensures rows { source_rows result ≡ loop_rows iterations chunk }
        ensures law { LoopLaw iterations chunk }
    {
        LoopSource { iterations, chunk }
    }

    // Whether there is such a loop.
    fn has_loop(self) -> bool
        ensures { result ≡ has_loop self.iterations self.chunk }
    {
        in_limits(self.iterations) && in_limits(self.chunk)
    }

    // How many rows the chunks have: one for each chunk, and one for each iteration.
    #[tactic(auto, using(crate::proofs::LoopLaw::length_all, crate::proofs::LoopLaw::few_all))]
    fn rows_in_chunks(self) -> usize
        requires { has_loop self.iterations self.chunk ≡ true }
        ensures count { result ≡ length (all_chunks self.iterations self.chunk) }
        ensures few { result ≤ 2000 }
    {
        self.iterations.div_ceil(self.chunk) + self.iterations
    }

    // How many iterations a chunk holds that comes after so many.
    fn held_after(self, before: usize) -> usize
        ensures { result ≡ min self.chunk (self.iterations - before) }
    {
        self.chunk.min(self.iterations.saturating_sub(before))
    }

    // The row at a place among those of the chunks. All chunks but the last have as many rows, so
    // that a division finds the chunk.
    #[tactic(auto, using(crate::proofs::LoopLaw::row_at))]
    fn row_in_chunks(self, place: usize) -> Row
        requires some { has_loop self.iterations self.chunk ≡ true }
        requires inside { place < length (all_chunks self.iterations self.chunk) }
        ensures { result ≡ row (all_chunks self.iterations self.chunk) place }
    {
        let rows = self.chunk + 1;
        if place % rows == 0 {
            holding(Kind::Async, self.held_after(place / rows * self.chunk))
        } else {
            work_row()
        }
    }
}

// Whether a number of iterations is from 1 to the most.
fn in_limits(n: usize) -> bool
    ensures { result ≡ (nat_le 1 n && nat_le n most_iterations) }
{
    (1..=MOST_ITERATIONS).contains(&n)
}

// A work row of mark 1.
fn work_row() -> Row
    ensures { result ≡ work_row }
{
    Row {
        size: 1,
        kind: Kind::Work.into(),
        mark: 1,
    }
}

// A row of a kind that holds so many rows.
fn holding(kind: Kind, held: usize) -> Row
    requires { held < 2 ^ 15 }
    ensures { result ≡ holding kind held }
{
    Row {
        size: 1 + held as u16,
        kind: kind.into(),
        mark: 0,
    }
}

impl JobSource for LoopSource {
    ghost rows = { source_rows };

    fn len(&self) -> usize {
        if self.has_loop() {
            1 + self.rows_in_chunks()
        } else {
            0
        }
    }

    fn row(&self, n: usize) -> Option<Row> {
        if n >= self.len() {
            return None;
        }
        if n == 0 {
            Some(holding(Kind::Finish, self.rows_in_chunks()))
        } else {
            Some(self.row_in_chunks(n - 1))
        }
    }
}
